//! Examples of the search over a machine that is a table of states, with answers by hand. It holds tests alone.
#![tactic(auto)]

#[cfg(test)]
mod searches;
#[cfg(test)]
mod table;
