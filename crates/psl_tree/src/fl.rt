ghost use Rattle.std.specs.Prelude.{◌<◌, IfSome};
ghost use Rattle.psl_tree.specs.Dropped.{FirstOf, LeftFirst, weight};

use crate::{Bool, Sere};
use std::mem;

/// A formula of the Foundation Language, reduced to its kernel (IEEE 1850, clause 6.2 and Annex B).
#[derive(Debug)]
pub enum Fl {
    Now(Bool),
    NowStrong(Bool),
    Weak(Sere),
    Strong(Sere),
    Not(Box<Fl>),
    And(Box<Fl>, Box<Fl>),
    Next(Box<Fl>),
    Until(Box<Fl>, Box<Fl>),
    Suffix(Sere, Box<Fl>),
    Abort(Box<Fl>, Bool),
    SyncAbort(Box<Fl>, Bool),
    Clocked(Box<Fl>, Bool),
}

// A loop, since a derived drop takes stack for each level, and a formula that was rewritten may have
// some 20,000 of them. It goes down the left parts; the right parts that it meets wait in one chain.
impl Drop for Fl {
    fn drop(mut self) {
        let mut waiting = None;
        while let Some((part, others)) = self.opened(waiting) {
            self = part;
            waiting = others;
        }
    }
}

// A formula to drop, and one that waits until that is done.
type Dropping = (Fl, Option<Box<Fl>>);

impl Fl {
    // What is to drop once the formula itself is gone.
    fn opened(self, waiting: Option<Box<Fl>>) -> Option<Dropping>
        ensures { IfSome result (λ left. weight left < weight (self, waiting)) }
    {
        match self {
            Fl::Now(_test) | Fl::NowStrong(_test) => first_of(waiting),
            Fl::Weak(_sequence) | Fl::Strong(_sequence) => first_of(waiting),
            Fl::Not(part) | Fl::Next(part) => Some((Box::into_inner(part), waiting)),
            Fl::And(left, right) | Fl::Until(left, right) => Some(left_first(left, right, waiting)),
            Fl::Suffix(_sequence, part) => Some((Box::into_inner(part), waiting)),
            Fl::Abort(part, _test) | Fl::SyncAbort(part, _test) | Fl::Clocked(part, _test) => {
                Some((Box::into_inner(part), waiting))
            }
        }
    }
}

fn first_of(waiting: Option<Box<Fl>>) -> Option<Dropping>
    ensures { FirstOf waiting result }
{
    waiting.map(|tree| (Box::into_inner(tree), None))
}

// The left part; the right part waits, in the box of the left one where another waits already.
fn left_first(mut left: Box<Fl>, right: Box<Fl>, waiting: Option<Box<Fl>>) -> Dropping
    ensures { LeftFirst left right waiting result }
{
    match waiting {
        None => (Box::into_inner(left), Some(right)),
        Some(later) => {
            let tree = mem::replace(&mut *left, Fl::And(right, later));
            (tree, Some(left))
        }
    }
}
