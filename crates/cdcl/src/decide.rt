// Decisions.
ghost use Rattle.std.specs.Prelude.{◌≡◌, ◌+◌, ◌*◌, ◌≤◌, length, IfSome, IfNone};
ghost use Rattle.clauses.specs.declared.flat.TheConstants.{MOST_VARIABLES};
ghost use Rattle.cdcl.specs.Turns.{IsFree, IsComplete};

use crate::choose::{free_variable, has_value};
use crate::order::Order;
use cdcl_trail::Trail;
use psl_base::NoMemory;
use std::alloc::Global;

// So many conflicts are well spent on each literal that is to be decided first. Where there are more, what it asks is hard,
// and the variables that the conflicts name are the better guides.
const TURNS: usize = 200;

/// Which variable is decided next, and with which value.
#[derive(Drop)]
pub struct Decider {
    order: Order,
    // By variable: the value that it had last.
    phases: Vec<bool>,
    // Literals that are decided before all others, in this order.
    first: Vec<u32>,
    // Those before this place have a value.
    place: usize,
    // How many conflicts there are to be until they are decided as all others are.
    turns: usize,
}

impl Decider {
    pub(crate) fn new(alloc: Global, variables: u32) -> Result<Decider, NoMemory> {
        Ok(Decider {
            order: Order::new(alloc, variables)?,
            phases: vec![in alloc; false; variables as usize]?,
            first: Vec::new(alloc),
            place: 0,
            turns: 0,
        })
    }

    /// Takes literals that are to be decided before all others, in this order. Where that takes long, it is given up.
    pub(crate) fn decide_first(&mut self, literals: Vec<u32>) {
        self.turns = literals.len().saturating_mul(TURNS);
        self.first = literals;
        self.place = 0;
    }

    /// A literal that is to be decided, of a variable that has no value.
    pub fn next(&mut self, trail: &Trail, variables: u32) -> Option<u32>
        requires all { variables ≤ trail.now.variables }
        requires few { trail.now.variables ≤ MOST_VARIABLES }
        ensures some { IfSome result (IsFree trail.now) }
        ensures none { IfNone result (IsComplete trail.now variables) }
    {
        if let Some(literal) = self.next_of_first(trail, variables) {
            return Some(literal);
        }
        match self.next_variable(trail, variables) {
            Some(variable) if self.phase(variable) => Some(2 * variable),
            Some(variable) => Some(2 * variable + 1),
            None => None,
        }
    }

    /// The first of the literals to be decided before all others whose variable has no value.
    fn next_of_first(&mut self, trail: &Trail, variables: u32) -> Option<u32>
        requires all { variables ≤ trail.now.variables }
        requires few { trail.now.variables ≤ MOST_VARIABLES }
        ensures some { IfSome result (IsFree trail.now) }
    {
        match free_among(&self.first, self.place, trail, variables) {
            Some((place, literal)) => {
                self.place = place;
                Some(literal)
            }
            None => {
                self.place = self.first.len();
                None
            }
        }
    }

    /// The most active variable that has no value; where the order has none left, any that has none.
    fn next_variable(&mut self, trail: &Trail, variables: u32) -> Option<u32>
        requires all { variables ≤ trail.now.variables }
        requires few { trail.now.variables ≤ MOST_VARIABLES }
        ensures some { IfSome result
            (λ variable. IsFree trail.now (2 * variable) × IsFree trail.now (2 * variable + 1)) }
        ensures none { IfNone result (IsComplete trail.now variables) }
    {
        while let Some(variable) = self.order.take() {
            if variable < variables && !has_value(trail, variable) {
                return Some(variable);
            }
        }
        free_variable(trail, variables)
    }

    /// The value that a variable had last, false at first.
    fn phase(&self, variable: u32) -> bool {
        match self.phases.get(variable as usize) {
            Some(phase) => *phase,
            None => false,
        }
    }

    /// Keeps the values of literals that are true no longer, and puts their variables back.
    pub(crate) fn release(&mut self, literals: &[u32]) {
        self.place = 0;
        for literal in literals {
            let variable = *literal / 2;
            if (variable as usize) < self.phases.len() {
                self.phases[variable as usize] = *literal % 2 == 0;
            }
            self.order.put(variable);
        }
    }

    /// Puts a variable among those that can be decided.
    pub fn put(&mut self, variable: u32) {
        self.order.put(variable);
    }

    /// Takes a literal for the one of its variable that is to be decided.
    pub fn prefer(&mut self, literal: u32) {
        let variable = (literal / 2) as usize;
        if variable < self.phases.len() {
            self.phases[variable] = literal % 2 == 0;
        }
    }

    /// Counts a conflict, up to the one with which no literal is decided before all others any more.
    fn take_turn(&mut self) {
        self.turns = self.turns.saturating_sub(1);
        if self.turns == 0 {
            self.first.clear();
        }
    }

    /// Makes the variables at places of the trail more active.
    pub(crate) fn bump(&mut self, trail: &Trail, places: &[u32]) {
        self.take_turn();
        let literals = trail.literals();
        for place in places {
            if (*place as usize) < literals.len() {
                self.order.bump(literals[*place as usize] / 2);
            }
        }
        self.order.decay();
    }
}

/// The first of some literals, from a place on, whose variable has no value; and its place.
fn free_among(literals: &[u32], from: usize, trail: &Trail, variables: u32) -> Option<(usize, u32)>
    requires all { variables ≤ trail.now.variables }
    requires few { trail.now.variables ≤ MOST_VARIABLES }
    ensures { IfSome result (λ found. IsFree trail.now found.1) }
{
    for place in from..literals.len() {
        let variable = literals[place] / 2;
        if variable < variables && !has_value(trail, variable) {
            if literals[place] % 2 == 0 {
                return Some((place, 2 * variable));
            }
            return Some((place, 2 * variable + 1));
        }
    }
    None
}
