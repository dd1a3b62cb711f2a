//! Open joint paths from hints: which values latches and inputs have along a path, and which obligations are owed and
//! pending at its places. What the hints say is taken as far as joint states allow, and judged.
#![tactic(auto)]

mod asking;
mod building;
mod judging;
mod listing;
mod meeting;
mod reading;
mod states;

pub use building::open_path;
