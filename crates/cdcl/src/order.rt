// The order in which variables are decided: a binary heap by activity, as in Chaff: engineering an efficient SAT solver
// (2001) and An extensible SAT-solver (2003).
ghost use Rattle.std.specs.Prelude.{◌<◌, ◌/◌, length, IfSome};

use psl_base::NoMemory;
use std::alloc::Global;

/// The place of a variable that is not in the heap.
const NOWHERE: usize = usize::MAX;

/// Where an activity passes this, all are made smaller.
const MOST_ACTIVITY: u64 = 1 << 60;

/// Each conflict counts for more than the one before it, by one part in so many.
const DECAY: u64 = 24;

/// Variables by activity: those that conflicts named of late come first.
///
/// No proof rests on the order: a variable at a wrong place costs time alone.
#[derive(Drop)]
pub(crate) struct Order {
    heap: Vec<u32>,
    // By variable: its place in the heap.
    places: Vec<usize>,
    // By variable.
    activities: Vec<u64>,
    // What a variable gains next.
    gain: u64,
}

impl Order {
    /// So many variables, none of which was active.
    pub(crate) fn new(alloc: Global, variables: u32) -> Result<Order, NoMemory> {
        let mut heap = Vec::with_capacity(alloc, variables as usize)?;
        let mut places = Vec::with_capacity(alloc, variables as usize)?;
        for variable in 0..variables {
            heap.push(variable)?;
            places.push(variable as usize)?;
        }
        Ok(Order {
            heap,
            places,
            activities: vec![in alloc; 0; variables as usize]?,
            gain: 1 << 20,
        })
    }

    /// Takes out the variable of the highest activity.
    pub(crate) fn take(&mut self) -> Option<u32>
        ensures { IfSome result (λ _. length self.new.heap.items < length self.old.heap.items) }
    {
        let last = self.heap.pop()?;
        let Some(first) = self.heap.first().copied() else {
            put_at(&mut self.places, last, NOWHERE);
            return Some(last);
        };
        put_at(&mut self.places, first, NOWHERE);
        sift_down(&mut self.heap, &mut self.places, &self.activities, last);
        Some(first)
    }

    /// Puts a variable back, if it is not there.
    pub(crate) fn put(&mut self, variable: u32) {
        let place = self.heap.len();
        if place_of(&self.places, variable) == NOWHERE && self.heap.push(variable).is_ok() {
            sift_up(
                &mut self.heap,
                &mut self.places,
                &self.activities,
                variable,
                place,
            );
        }
    }

    /// Makes a variable more active.
    pub(crate) fn bump(&mut self, variable: u32) {
        let activity = activity_of(&self.activities, variable).saturating_add(self.gain);
        if (variable as usize) < self.activities.len() {
            self.activities[variable as usize] = activity;
        }
        let place = place_of(&self.places, variable);
        if place < self.heap.len() {
            sift_up(
                &mut self.heap,
                &mut self.places,
                &self.activities,
                variable,
                place,
            );
        }
        if activity > MOST_ACTIVITY {
            self.shrink();
        }
    }

    /// Lets the next variables gain more than the last ones did.
    pub(crate) fn decay(&mut self) {
        self.gain = self.gain.saturating_add(self.gain / DECAY);
    }

    /// Makes all activities smaller.
    fn shrink(&mut self) {
        for activity in self.activities.iter_mut() {
            *activity >>= 40;
        }
        self.gain >>= 40;
    }
}

fn place_of(places: &[usize], variable: u32) -> usize {
    if (variable as usize) < places.len() {
        places[variable as usize]
    } else {
        NOWHERE
    }
}

fn put_at(places: &mut [usize], variable: u32, place: usize) {
    if (variable as usize) < places.len() {
        places[variable as usize] = place;
    }
}

fn activity_of(activities: &[u64], variable: u32) -> u64 {
    if (variable as usize) < activities.len() {
        activities[variable as usize]
    } else {
        0
    }
}

/// Moves a variable from a place towards the front, as far as its activity takes it.
fn sift_up(
    heap: &mut [u32],
    places: &mut [usize],
    activities: &[u64],
    variable: u32,
    mut place: usize,
)
    requires { place < length heap.old }
{
    let activity = activity_of(activities, variable);
    while place > 0 {
        let parent = (place - 1) / 2;
        let other = heap[parent];
        if activity <= activity_of(activities, other) {
            break;
        }
        heap[place] = other;
        put_at(places, other, place);
        place = parent;
    }
    heap[place] = variable;
    put_at(places, variable, place);
}

/// Moves a variable from the front backwards, as far as its activity lets it.
fn sift_down(heap: &mut [u32], places: &mut [usize], activities: &[u64], variable: u32)
    requires { 0 < length heap.old }
{
    let activity = activity_of(activities, variable);
    let mut place = 0;
    while place < heap.len() / 2 {
        let child = better_child(heap, activities, place);
        let other = heap[child];
        if activity_of(activities, other) <= activity {
            break;
        }
        heap[place] = other;
        put_at(places, other, place);
        place = child;
    }
    heap[place] = variable;
    put_at(places, variable, place);
}

/// The place of the child with the higher activity.
fn better_child(heap: &[u32], activities: &[u64], place: usize) -> usize
    requires { place < length heap.now / 2 }
    ensures later { place < result }
    ensures within { result < length heap.now }
{
    let left = 2 * place + 1;
    let right = left + 1;
    if right < heap.len()
        && activity_of(activities, heap[left]) < activity_of(activities, heap[right])
    {
        right
    } else {
        left
    }
}
