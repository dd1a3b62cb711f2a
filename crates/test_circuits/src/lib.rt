//! Examples of circuits: netlists and hierarchies of models, flattened, ordered and as clauses, with answers by hand. It
//! holds tests alone.
#![tactic(auto)]

#[cfg(test)]
mod circuits;
#[cfg(test)]
mod flat_models;
#[cfg(test)]
mod flat_netlists;
#[cfg(test)]
mod hierarchies;
#[cfg(test)]
mod netlists;
#[cfg(test)]
mod node_formulas;
#[cfg(test)]
mod orders;
