//! Examples of the formulas that the prover puts to the solver: small netlists and automata for which the sizes of the
//! formulas, the answers, and the runs and paths of their models were worked out by hand. It holds tests alone.
#![tactic(auto)]

#[cfg(test)]
mod models;
#[cfg(test)]
mod netlists;
#[cfg(test)]
mod reaching;
#[cfg(test)]
mod searches;
#[cfg(test)]
mod violations;
#[cfg(test)]
mod windows;
