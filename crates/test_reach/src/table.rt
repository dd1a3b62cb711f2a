// A machine that is a table: one state that begins, and pairs of states that follow one another.
ghost use Rattle.std.specs.Prelude.{◌≡◌, ◌≤◌, ◌<◌, length, slice_get, Some, IsTrue, IfOk, IfSome, IfNone};
ghost use Rattle.clauses.specs.declared.flat.TheConstants.{MOST_VARIABLES};
ghost use Rattle.clauses.specs.Literals.{clause_within, is_within};
ghost use Rattle.test_reach.specs.Tables.{are_same, leads_from, leads_into};

use clauses::Clauses;
use psl_base::{Bits, Items, NoMemory};
use reach_frames::{Entered, Entry, Machine, Stop, is_in_cube, is_met};
use std::alloc::Global;

#[derive(Drop)]
pub(crate) struct Table {
    pub(crate) start: Bits,
    pub(crate) steps: Items<Entry>,
    pub(crate) goal: i32,
    pub(crate) ghost few: { length start ≤ MOST_VARIABLES },
    pub(crate) ghost goal_within: { IsTrue (is_within (length start) goal) },
}

// Whether two states are the same.
fn are_equal(bits: &Bits, others: &Bits) -> bool
    ensures { result ≡ are_same bits.now others.now }
{
    bits.as_slice() == others.as_slice()
}

// Whether a pair of states leads into a cube.
fn leads(start: &Bits, frame: &Clauses, initial: bool, cube: &[i32], entry: &Entry) -> bool
    requires { IsTrue (clause_within MOST_VARIABLES cube.now) }
    ensures { result ≡ leads_into start.now frame.now initial cube.now entry.now }
{
    entry.before.len() == start.len()
        && entry.after.len() == start.len()
        && is_met(frame, &entry.before)
        && !is_in_cube(cube, &entry.before)
        && is_in_cube(cube, &entry.after)
        && (!initial || are_equal(&entry.before, start))
}

// Whether a pair of states leads from a state into a cube.
fn leads_on(start: &Bits, state: &Bits, cube: &[i32], entry: &Entry) -> bool
    requires { IsTrue (clause_within MOST_VARIABLES cube.now) }
    ensures { result ≡ leads_from start.now state.now cube.now entry.now }
{
    are_equal(&entry.before, state)
        && entry.after.len() == start.len()
        && is_in_cube(cube, &entry.after)
}

fn copied(alloc: Global, entry: &Entry) -> Result<Entry, NoMemory>
    ensures { IfOk result (λ copy. copy ≡ entry.now) }
{
    Ok(Entry {
        before: entry.before.copy(alloc)?,
        after: entry.after.copy(alloc)?,
    })
}

// A mask of so many bits, of which the first may be left out.
fn mask(alloc: Global, width: usize, first: bool) -> Result<Bits, NoMemory> {
    let mut mask = Bits::new(alloc);
    for place in 0..width {
        mask.push(place > 0 || first)?;
    }
    Ok(mask)
}

impl Machine for Table {
    ghost use Rattle.std.specs.Prelude.{◌≡◌, refl};
    ghost use Rattle.test_reach.specs.Tables.{table_system};
    ghost use Rattle.reach_frames.specs.declared.stop.Stop.{Stop};

    ghost system = { λ table. table_system table.start table.steps table.goal table.goal_within };

    ghost stops = { λ table stop. stop ≡ Stop.NoMemory };

    fn width(&self) -> u32 {
        self.start.len() as u32
    }

    fn goal(&self) -> i32 {
        self.goal
    }

    fn begins(&self, alloc: Global, cube: &[i32]) -> Result<Option<Bits>, Stop> {
        if is_in_cube(cube, &self.start) {
            return Ok(Some(self.start.copy(alloc)?));
        }
        Ok(None)
    }

    fn entry(
        &self,
        alloc: Global,
        frame: &Clauses,
        initial: bool,
        cube: &[i32],
    ) -> Result<Entered, Stop> {
        for place in 0..self.steps.len() {
            let entry = self.steps.at(place);
            if leads(&self.start, frame, initial, cube, entry) {
                return Ok(Entered::Found(copied(alloc, entry)?));
            }
        }
        Ok(Entered::Kept(mask(alloc, self.start.len(), true)?))
    }

    fn lifted(&self, alloc: Global, _entry: &Entry, _cube: &[i32]) -> Result<Bits, NoMemory> {
        mask(alloc, self.start.len(), false)
    }

    fn thinned(&self, alloc: Global, _cube: &[i32]) -> Result<Bits, NoMemory> {
        mask(alloc, self.start.len(), false)
    }

    fn leaves_out(&self) -> bool {
        true
    }

    // So that each literal is tried.
    fn is_away(&self, _cube: &[i32]) -> bool {
        true
    }

    fn led_on(&self, alloc: Global, state: &Bits, cube: &[i32]) -> Result<Option<Bits>, NoMemory> {
        for place in 0..self.steps.len() {
            let entry = self.steps.at(place);
            if leads_on(&self.start, state, cube, entry) {
                return Ok(Some(entry.after.copy(alloc)?));
            }
        }
        Ok(None)
    }

    ghost refused = { λ table. refl };
}
