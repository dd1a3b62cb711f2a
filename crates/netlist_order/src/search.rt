// The state of the search for strong components, and its steps.
//
// Path-based strong components (Path-based depth-first search for strong and biconnected components, 2000): the open
// tables stand in the order in which they were met, and a list of places says where the components begin, as far as
// is known.
ghost use Rattle.std.specs.Prelude.{◌≡◌, ◌+◌, ◌-◌, ◌<◌, ◌≤◌, ◌^◌, length, All, IfOk, IfErr, OnOk, slice_get};
ghost use Rattle.netlist_order.specs.State.{mark_of, next_of, table_at, unvisited, entered, with_heads, advanced, left, closed, mark_done, lowest, DropsAbove, Reaches};

use psl_base::NoMemory;
use std::alloc::Global;
use std::marker::Model;

/// How far a table is.
#[derive(Clone, Copy)]
pub(crate) enum Visit {
    /// It was not met.
    New,
    /// It was met, at a place among the open tables, and its component is not closed.
    Open(usize),
    /// Its component is closed.
    Done,
}

/// A search. Contracts see the record of its lists.
#[derive(Drop)]
pub(crate) struct Search {
    // By table, how far it is, and how many of its inputs were followed.
    marks: Vec<Visit>,
    next: Vec<usize>,
    // The open tables, in the order in which they were met.
    met: Vec<u32>,
    // The places among them where a component begins, as far as is known, and those that are still to be left.
    heads: Vec<usize>,
    path: Vec<usize>,
    // The closed tables, and the lowest one of them that is on a cycle.
    order: Vec<u32>,
    first: Option<u32>,
}

impl Model for Search {
    ghost use Rattle.netlist_order.specs.State.{State};

    ghost Value = { State };

    ghost view = { λ search. record {
      marks = search.marks.items;
      next = search.next.items;
      met = search.met.items;
      heads = search.heads.items;
      path = search.path.items;
      order = search.order.items;
      first = search.first;
    } };
}

impl Search {
    /// A search that has met none of so many tables.
    pub(crate) fn new(alloc: Global, count: usize) -> Result<Search, NoMemory>
        ensures { IfOk result (λ search. search ≡ unvisited count) }
    {
        Ok(Search {
            marks: vec![in alloc; Visit::New; count]?,
            next: vec![in alloc; 0usize; count]?,
            met: Vec::new(alloc),
            heads: Vec::new(alloc),
            path: Vec::new(alloc),
            order: Vec::new(alloc),
            first: None,
        })
    }

    /// How far a table is.
    pub(crate) fn mark(&self, table: u32) -> Visit
        requires { table < length self.now.marks }
        ensures { result ≡ mark_of self.now table }
    {
        self.marks[table as usize]
    }

    /// How many inputs of a table were followed.
    pub(crate) fn next(&self, table: u32) -> usize
        requires { table < length self.now.next }
        ensures { result ≡ next_of self.now table }
    {
        self.next[table as usize]
    }

    /// The open table at a place.
    pub(crate) fn table(&self, place: usize) -> u32
        requires { place < length self.now.met }
        ensures { result ≡ table_at self.now place }
    {
        self.met[place]
    }

    /// The last place that is still to be left.
    pub(crate) fn place(&self) -> Option<usize>
        ensures { result ≡ slice_get self.now.path (length self.now.path - 1) }
    {
        self.path.last().copied()
    }

    /// The last place where a component begins.
    pub(crate) fn head(&self) -> Option<usize>
        ensures { result ≡ slice_get self.now.heads (length self.now.heads - 1) }
    {
        self.heads.last().copied()
    }

    /// How many tables are open.
    pub(crate) fn open(&self) -> usize
        ensures { result ≡ length self.now.met }
    {
        self.met.len()
    }

    /// Meets a table, which begins a component of its own.
    pub(crate) fn enter(&mut self, table: u32) -> Result<(), NoMemory>
        requires { table < length self.old.marks }
        ensures { OnOk result (self.new ≡ entered self.old table) }
    {
        let place = self.met.len();
        self.marks[table as usize] = Visit::Open(place);
        self.met.push(table)?;
        self.heads.push(place)?;
        self.path.push(place)?;
        Ok(())
    }

    /// Joins the components that begin behind a place with the one in which it is.
    pub(crate) fn merge(&mut self, place: usize)
        ensures heads { DropsAbove place self.old.heads self.new.heads }
        ensures rest { self.new ≡ with_heads self.old self.new.heads }
    {
        drop_above(&mut self.heads, place);
    }

    /// Reaches a table that is read: meets it, or joins the components back to its place.
    pub(crate) fn reach(&mut self, table: u32) -> Result<(), NoMemory>
        requires { table < length self.old.marks }
        ensures { OnOk result (Reaches table self.old self.new) }
    {
        match self.mark(table) {
            Visit::New => self.enter(table),
            Visit::Open(place) => {
                self.merge(place);
                Ok(())
            }
            Visit::Done => Ok(()),
        }
    }

    /// Counts one more input of a table as followed.
    pub(crate) fn advance(&mut self, table: u32)
        requires table { table < length self.old.next }
        requires fits { next_of self.old table + 1 < 2 ^ 64 }
        ensures { self.new ≡ advanced self.old table }
    {
        self.next[table as usize] += 1;
    }

    /// Leaves the last place of the path.
    pub(crate) fn leave(&mut self)
        ensures { self.new ≡ left self.old }
    {
        let _place = self.path.pop();
    }

    /// Closes the last component, which begins at a place.
    pub(crate) fn close(&mut self, place: usize, cyclic: bool) -> Result<(), NoMemory>
        requires place { place ≤ length self.old.met }
        requires tables { All (λ table. table < length self.old.marks) self.old.met }
        ensures { OnOk result (self.new ≡ closed self.old place cyclic) }
    {
        let component = &self.met[place..];
        mark_done(&mut self.marks, component);
        self.order.extend_from_slice(component)?;
        if cyclic {
            self.first = lowest(self.first, component);
        }
        self.met.truncate(place);
        let _head = self.heads.pop();
        Ok(())
    }

    /// The lowest table on a cycle, or else the closed tables in order.
    pub(crate) fn into_answer(self) -> Result<Vec<u32>, u32>
        ensures order { IfOk result (λ order. (self.first ≡ None) × (order.items ≡ self.order)) }
        ensures cycle { IfErr result (λ table. self.first ≡ Some table) }
    {
        let Search { order, first, .. } = self;
        match first {
            None => Ok(order),
            Some(table) => Err(table),
        }
    }
}

// Drops the last places, up to one that is not above a limit.
fn drop_above(places: &mut Vec<usize>, limit: usize)
    ensures { DropsAbove limit places.old.items places.new.items }
{
    while let Some(place) = places.last() {
        if *place <= limit {
            break;
        }
        let _above = places.pop();
    }
}

// Marks tables as closed.
fn mark_done(marks: &mut [Visit], tables: &[u32])
    requires { All (λ table. table < length marks.old) tables.now }
    ensures { marks.new ≡ mark_done marks.old tables.now }
{
    for table in tables {
        marks[*table as usize] = Visit::Done;
    }
}

// The lowest of some tables and one that may be missing.
fn lowest(first: Option<u32>, tables: &[u32]) -> Option<u32>
    ensures { result ≡ lowest first tables.now }
{
    let mut least = first;
    for table in tables {
        least = match least {
            None => Some(*table),
            Some(other) => Some(other.min(*table)),
        };
    }
    least
}
