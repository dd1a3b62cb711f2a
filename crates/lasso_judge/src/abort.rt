ghost use Rattle.std.specs.Prelude.{◌≡◌, ◌-◌, ◌<◌, ◌≤◌, ℕ, length, if◌then◌else◌, slice_index, IfOk};
ghost use Rattle.psl_tree.specs.Trees.{boolean_of};
ghost use Rattle.lasso_tables.specs.Seen.{IsWhole};
ghost use Rattle.lasso_judge.specs.Stops.{IsStopped};
ghost use Rattle.lasso_tables.specs.Tables.{Has, Leads, value_at};

use lasso_tables::held;
use psl_base::NoMemory;
use psl_tree::{Bool, Word};
use std::alloc::Global;

/// A course that goes on at the sink, which is Top for ever, from where it would come to a place that
/// stops it. So an abort needs one course alone, cut at the first place with its Boolean.
#[derive(Drop)]
pub(crate) struct Stopped {
    /// For each place, whether it stops the course.
    pub(crate) stops: Vec<bool>,
    /// The place at which Top is seen for ever.
    pub(crate) sink: usize,
    /// The next place of each place.
    pub(crate) next: Vec<usize>,
}

/// The course that each place stops on which a Boolean holds.
#[inline(never)]
pub(crate) fn stopped_course(
    alloc: Global,
    test: &Bool,
    word: &Word,
    next: &[usize],
    flipped: bool,
) -> Result<Stopped, NoMemory>
    requires { IsWhole word.now next.now }
    ensures stopped { IfOk result (λ stopped. IsStopped word.now flipped (boolean_of test.now) next.now stopped) }
    ensures whole { IfOk result (λ stopped. IsWhole word.now stopped.next.items) }
{
    let stops = held(alloc, test, word, next.len(), flipped)?;
    let sink = sink(next.len(), flipped);
    let next = halted(alloc, &stops, sink, next)?;
    Ok(Stopped { stops, sink, next })
}

// The place at which Top is seen for ever, of so many places.
fn sink(count: usize, flipped: bool) -> usize
    requires { 2 ≤ count }
    ensures { result ≡ (if flipped then count - 1 else count - 2) }
{
    if flipped { count - 1 } else { count - 2 }
}

// The next places, with the sink for each that stops the course.
#[tactic(auto, using(lasso_tables::proofs::Pushed::leads_push, lasso_tables::proofs::Pushed::leads_none))]
fn halted(
    alloc: Global,
    stops: &[bool],
    sink: usize,
    next: &[usize],
) -> Result<Vec<usize>, NoMemory>
    requires { (place : ℕ) → place < length next.now → slice_index next.now place < length stops.now }
    ensures { IfOk result (λ halted.
        Leads (length next.now)
        (λ place. if value_at stops.now (slice_index next.now place) then sink else slice_index next.now place)
        halted.items) }
{
    let mut halted = Vec::new(alloc);
    for place in next {
        halted.push(if stops[*place] { sink } else { *place })?;
    }
    Ok(halted)
}

impl Stopped {
    /// The values on the course from those on the stopped one: that of the sink at each place that stops it.
    #[inline(never)]
    #[tactic(auto, using(lasso_tables::proofs::Pushed::has_push, lasso_tables::proofs::Pushed::has_none))]
    pub(crate) fn values(&self, alloc: Global, part: &[bool]) -> Result<Vec<bool>, NoMemory>
        requires same { length self.now.stops.items ≡ length part.now }
        requires within { self.now.sink < length part.now }
        ensures { IfOk result (λ values.
            Has (length part.now)
            (λ place. value_at part.now (if value_at self.now.stops.items place then self.now.sink else place))
            values.items) }
    {
        let mut values = Vec::new(alloc);
        for place in 0..part.len() {
            values.push(part[if self.stops[place] { self.sink } else { place }])?;
        }
        Ok(values)
    }
}
