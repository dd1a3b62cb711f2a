ghost use Rattle.std.specs.Prelude.{◌≡◌, ◌≤◌, ◌<◌, ◌+◌, ◌^◌, ℕ, length, slice_index, IfOk};
ghost use Rattle.psl_tree.specs.Trees.{boolean_of};
ghost use Rattle.alternating_theory.specs.Merged.{same_truth, same_boolean, same_literal, same_positive, same_obligation, class_in, first_from, classes_upto};
ghost use Rattle.alternating_theory.specs.Positive.{renumbered};
ghost use Rattle.alternating.specs.Alike.{owe_alike};
ghost use Rattle.alternating.specs.Classes.{Firsts, ClassNames};
ghost use Rattle.alternating.specs.Sizes.{delta_sizes};
ghost use Rattle.alternating.specs.Supposed.{class_of, asked, asks_same};
ghost use Rattle.alternating.specs.Views.{positive_of, obligation_of, obligations_of_code};

use crate::literal::{bare, is_unnegated};
use crate::obligation::Obligation;
use crate::positive::Positive;
use psl_base::NoMemory;
use psl_tree::{Bool, same_atom};
use std::alloc::Global;

/// The classes of so many obligations in one pass: each becomes one with the first before it that asks
/// the same, once those before it have become one and these two are supposed to be one. A class is the
/// number of its first obligation.
pub(crate) fn classes_of(
    alloc: Global,
    obligations: &[Obligation],
    count: u32,
) -> Result<Vec<u32>, NoMemory>
    requires { count ≤ length obligations.now }
    ensures { IfOk result (λ classes. classes.items ≡ classes_upto (obligations_of_code obligations.now) count) }
{
    let sizes = sizes_of(alloc, obligations)?;
    let mut classes = Vec::new(alloc);
    for number in 0..count {
        let known = Known {
            obligations,
            sizes: sizes.as_slice(),
            classes: classes.as_slice(),
        };
        let class = known.first_like(number);
        classes.push(class)?;
    }
    Ok(classes)
}

// The size of each obligation's delta.
fn sizes_of(alloc: Global, obligations: &[Obligation]) -> Result<Vec<u32>, NoMemory>
    ensures { IfOk result (λ sizes. sizes.items ≡ delta_sizes (obligations_of_code obligations.now)) }
{
    let mut sizes = Vec::new(alloc);
    for obligation in obligations {
        sizes.push(obligation.delta.size())?;
    }
    Ok(sizes)
}

/// What the pass knows: the obligations, the sizes of their deltas, and the classes of the first ones.
#[derive(Clone, Copy)]
struct Known<'a> {
    obligations: &'a [Obligation],
    sizes: &'a [u32],
    classes: &'a [u32],
}

impl Known<'_> {
    // The first obligation that asks what this one asks, up to the classes of those before it.
    fn first_like(&self, number: u32) -> u32
        requires number { number < length self.now.obligations.now }
        requires sizes { self.now.sizes.now ≡ delta_sizes (obligations_of_code self.now.obligations.now) }
        requires classes { length self.now.classes.now ≡ number }
        ensures { result ≡ first_from 0 number (λ earlier. asks_same self.now earlier number) }
    {
        for earlier in 0..number {
            if self.is_like(earlier, number) {
                return earlier;
            }
        }
        number
    }

    // Whether an earlier obligation is the first of its class, and the other asks what it asks if they
    // are one. Obligations of different sizes do not, so the trees of few are compared.
    fn is_like(&self, earlier: u32, number: u32) -> bool
        requires number { number < length self.now.obligations.now }
        requires sizes { self.now.sizes.now ≡ delta_sizes (obligations_of_code self.now.obligations.now) }
        requires classes { length self.now.classes.now ≡ number }
        requires earlier { earlier < number }
        ensures { result ≡ asks_same self.now earlier number }
    {
        self.sizes[earlier as usize] == self.sizes[number as usize]
            && self.asks_same(earlier, number)
    }

    fn asks_same(&self, earlier: u32, number: u32) -> bool
        requires number { number < length self.now.obligations.now }
        requires classes { length self.now.classes.now ≡ number }
        requires earlier { earlier < number }
        ensures { result ≡ asks_same self.now earlier number }
    {
        let first = &self.obligations[earlier as usize];
        let second = &self.obligations[number as usize];
        let supposed = Supposed {
            classes: self.classes,
            number,
            class: earlier,
        };
        class_of(self.classes, earlier) == earlier && same_obligation(first, second, &supposed)
    }
}

/// The class of an obligation, which is its own where none is known yet.
fn class_of(classes: &[u32], number: u32) -> u32
    ensures { result ≡ class_in classes.now number }
{
    if (number as usize) < classes.len() {
        classes[number as usize]
    } else {
        number
    }
}

/// The classes of the first obligations, and the one that a later obligation is supposed to have.
#[derive(Clone, Copy)]
struct Supposed<'a> {
    classes: &'a [u32],
    number: u32,
    class: u32,
}

impl Supposed<'_> {
    // The class of an obligation.
    fn class_of(&self, number: u32) -> u32
        ensures { result ≡ class_of self.now number }
    {
        if number == self.number {
            self.class
        } else {
            class_of(self.classes, number)
        }
    }
}

fn same_truth(left: bool, right: bool) -> bool
    ensures { result ≡ same_truth left right }
{
    if left { right } else { !right }
}

// What is told apart soonest goes first: the values.
fn same_obligation(left: &Obligation, right: &Obligation, classes: &Supposed) -> bool
    ensures { result ≡ same_obligation (asked classes.now (obligation_of left.now)) (asked classes.now (obligation_of right.now)) }
{
    same_truth(left.accepting, right.accepting)
        && (same_truth(left.end, right.end)
            && (same_truth(left.top, right.top)
                && (same_truth(left.bottom, right.bottom)
                    && same_delta(&left.delta, &right.delta, classes))))
}

// What they owe is compared first: the states of a sequence share what follows it, and any Boolean
// may be large.
fn same_delta(left: &Positive, right: &Positive, classes: &Supposed) -> bool
    ensures { result ≡ same_positive (renumbered (class_of classes.now) (positive_of left.now)) (renumbered (class_of classes.now) (positive_of right.now)) }
{
    let alike = owe_alike(left, right, classes);
    alike && same_positive(left, right, classes)
}

// Whether two combinations owe the same in the same places, as far as their forms agree.
fn owe_alike(left: &Positive, right: &Positive, classes: &Supposed) -> bool
    ensures { result ≡ owe_alike (renumbered (class_of classes.now) (positive_of left.now)) (renumbered (class_of classes.now) (positive_of right.now)) }
{
    match left {
        Positive::Const(_) | Positive::Holds(_) => true,
        Positive::Owed(number) => match right {
            Positive::Owed(other) => classes.class_of(*number) == classes.class_of(*other),
            Positive::Const(_) | Positive::Holds(_) | Positive::And(_, _) | Positive::Or(_, _) => {
                true
            }
        },
        Positive::And(first, second) => match right {
            Positive::And(third, fourth) => {
                owe_alike(first, third, classes) && owe_alike(second, fourth, classes)
            }
            Positive::Const(_) | Positive::Holds(_) | Positive::Owed(_) | Positive::Or(_, _) => {
                true
            }
        },
        Positive::Or(first, second) => match right {
            Positive::Or(third, fourth) => {
                owe_alike(first, third, classes) && owe_alike(second, fourth, classes)
            }
            Positive::Const(_) | Positive::Holds(_) | Positive::Owed(_) | Positive::And(_, _) => {
                true
            }
        },
    }
}

fn same_positive(left: &Positive, right: &Positive, classes: &Supposed) -> bool
    ensures { result ≡ same_positive (renumbered (class_of classes.now) (positive_of left.now)) (renumbered (class_of classes.now) (positive_of right.now)) }
{
    match left {
        Positive::Const(value) => match right {
            Positive::Const(other) => same_truth(*value, *other),
            Positive::Holds(_) | Positive::Owed(_) | Positive::And(_, _) | Positive::Or(_, _) => {
                false
            }
        },
        Positive::Holds(test) => match right {
            Positive::Holds(other) => same_literal(test, other),
            Positive::Const(_) | Positive::Owed(_) | Positive::And(_, _) | Positive::Or(_, _) => {
                false
            }
        },
        Positive::Owed(number) => match right {
            Positive::Owed(other) => classes.class_of(*number) == classes.class_of(*other),
            Positive::Const(_) | Positive::Holds(_) | Positive::And(_, _) | Positive::Or(_, _) => {
                false
            }
        },
        Positive::And(first, second) => match right {
            Positive::And(third, fourth) => {
                same_positive(second, fourth, classes) && same_positive(first, third, classes)
            }
            Positive::Const(_) | Positive::Holds(_) | Positive::Owed(_) | Positive::Or(_, _) => {
                false
            }
        },
        Positive::Or(first, second) => match right {
            Positive::Or(third, fourth) => {
                same_positive(second, fourth, classes) && same_positive(first, third, classes)
            }
            Positive::Const(_) | Positive::Holds(_) | Positive::Owed(_) | Positive::And(_, _) => {
                false
            }
        },
    }
}

fn same_literal(left: &Bool, right: &Bool) -> bool
    ensures { result ≡ same_literal (boolean_of left.now) (boolean_of right.now) }
{
    same_truth(is_unnegated(left), is_unnegated(right)) && same_boolean(bare(left), bare(right))
}

fn same_boolean(left: &Bool, right: &Bool) -> bool
    ensures { result ≡ same_boolean (boolean_of left.now) (boolean_of right.now) }
{
    match left {
        Bool::Const(value) => match right {
            Bool::Const(other) => same_truth(*value, *other),
            Bool::Test(_) | Bool::Not(_) | Bool::And(_, _) | Bool::Or(_, _) => false,
        },
        Bool::Test(atom) => match right {
            Bool::Test(other) => same_atom(atom, other),
            Bool::Const(_) | Bool::Not(_) | Bool::And(_, _) | Bool::Or(_, _) => false,
        },
        Bool::Not(part) => match right {
            Bool::Not(other) => same_boolean(part, other),
            Bool::Const(_) | Bool::Test(_) | Bool::And(_, _) | Bool::Or(_, _) => false,
        },
        Bool::And(first, second) => match right {
            Bool::And(third, fourth) => {
                same_boolean(first, third) && same_boolean(second, fourth)
            }
            Bool::Const(_) | Bool::Test(_) | Bool::Not(_) | Bool::Or(_, _) => false,
        },
        Bool::Or(first, second) => match right {
            Bool::Or(third, fourth) => {
                same_boolean(first, third) && same_boolean(second, fourth)
            }
            Bool::Const(_) | Bool::Test(_) | Bool::Not(_) | Bool::And(_, _) => false,
        },
    }
}

/// Whether each obligation is the first of its class. The last one, behind those with a class, is.
pub(crate) fn firsts(alloc: Global, classes: &[u32]) -> Result<Vec<bool>, NoMemory>
    requires { length classes.now + 1 < 2 ^ 32 }
    ensures { IfOk result (λ marks. Firsts classes.now marks.items) }
{
    let mut marks = Vec::new(alloc);
    for (number, class) in classes.iter().enumerate() {
        marks.push(*class == number as u32)?;
    }
    marks.push(true)?;
    Ok(marks)
}

/// The new number of each obligation: that of the first of its class.
pub(crate) fn class_names(
    alloc: Global,
    classes: &[u32],
    names: &[u32],
) -> Result<Vec<u32>, NoMemory>
    requires names { length names.now ≡ length classes.now + 1 }
    requires below { (number : ℕ) → number < length classes.now → slice_index classes.now number ≤ number }
    ensures { IfOk result (λ new. ClassNames classes.now names.now new.items) }
{
    let mut new = Vec::new(alloc);
    for class in classes {
        new.push(names[*class as usize])?;
    }
    new.push(names[classes.len()])?;
    Ok(new)
}
