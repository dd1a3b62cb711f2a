//! Examples of what is asked of runs: what is owed of an assertion, the gates of a combination, the formulas of a window,
//! and what is found, with answers by hand. It holds tests alone.
#![tactic(auto)]

#[cfg(test)]
mod combinations;
#[cfg(test)]
mod owed_formulas;
#[cfg(test)]
mod provers;
#[cfg(test)]
mod windows;
