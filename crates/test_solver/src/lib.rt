//! Examples of what the solver and the checker of its logs do, part by part, with answers by hand. It holds tests alone.
#![tactic(auto)]

#[cfg(test)]
mod checking;
#[cfg(test)]
mod conflicts;
#[cfg(test)]
mod growing;
#[cfg(test)]
mod pools;
#[cfg(test)]
mod propagators;
#[cfg(test)]
mod solving;
#[cfg(test)]
mod stores;
#[cfg(test)]
mod trails;
