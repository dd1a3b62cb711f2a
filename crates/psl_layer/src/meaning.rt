// What an expression stands for, and how it is read as another kind.
ghost use Rattle.std.specs.Prelude.{◌≡◌, IfOk};
ghost use Rattle.psl_layer_theory.specs.Kernel as kernel;
ghost use Rattle.psl_layer.specs.Built.{kind_in};
ghost use Rattle.psl_layer.specs.Rows.{ReadBoolean, ReadSequence, ReadFormula};

use psl_base::NoMemory;
use psl_layer_theory::ExpressionKind;
use psl_sugar::{MeasuredBool, MeasuredFl, MeasuredSere, SugarFault};
use std::alloc::Global;

/// What an expression stands for, by its kind; or that it has more than 4,096 constructors, or that memory was refused.
#[derive(Debug, Drop)]
pub(crate) enum Meaning {
    Boolean(Result<MeasuredBool, SugarFault>),
    Sequence(Result<MeasuredSere, SugarFault>),
    Property(Result<MeasuredFl, SugarFault>),
}

impl Meaning {
    /// The kind of what it stands for.
    pub(crate) fn kind(&self) -> ExpressionKind
        ensures { result ≡ kind_in self.now }
    {
        match self {
            Meaning::Boolean(_) => ExpressionKind::Boolean,
            Meaning::Sequence(_) => ExpressionKind::Sequence,
            Meaning::Property(_) => ExpressionKind::Property,
        }
    }

    /// As a Boolean; what is none is read as `false`.
    pub(crate) fn into_boolean(self) -> Result<MeasuredBool, SugarFault>
        ensures { ReadBoolean kernel.boolean_in self result }
    {
        match self {
            Meaning::Boolean(test) => test,
            Meaning::Sequence(_) | Meaning::Property(_) => Ok(MeasuredBool::constant(false)),
        }
    }

    /// As a sequence: a Boolean is one letter; a property is read as the empty sequence.
    pub(crate) fn into_sequence(self) -> Result<MeasuredSere, SugarFault>
        ensures { ReadSequence kernel.sequence_in self result }
    {
        match self {
            Meaning::Boolean(test) => MeasuredSere::one(test?),
            Meaning::Sequence(sequence) => sequence,
            Meaning::Property(_) => Ok(MeasuredSere::empty()),
        }
    }

    /// As a property.
    pub(crate) fn into_formula(self) -> Result<MeasuredFl, SugarFault>
        ensures { ReadFormula kernel.formula_in self result }
    {
        match self {
            Meaning::Boolean(test) => MeasuredFl::now(test?),
            Meaning::Sequence(sequence) => MeasuredFl::weak(sequence?),
            Meaning::Property(formula) => formula,
        }
    }

    /// As a property, with `!` behind it.
    pub(crate) fn into_strong(self) -> Result<MeasuredFl, SugarFault>
        ensures { ReadFormula kernel.strong_in self result }
    {
        match self {
            Meaning::Boolean(test) => MeasuredFl::now_strong(test?),
            Meaning::Sequence(sequence) => MeasuredFl::strong(sequence?),
            Meaning::Property(formula) => formula,
        }
    }

    /// An equal one.
    pub(crate) fn copy(&self, alloc: Global) -> Result<Meaning, NoMemory>
        ensures { IfOk result (λ new. new ≡ self.now) }
    {
        Ok(match self {
            Meaning::Boolean(Ok(test)) => Meaning::Boolean(Ok(test.copy(alloc)?)),
            Meaning::Boolean(Err(fault)) => Meaning::Boolean(Err(*fault)),
            Meaning::Sequence(Ok(sequence)) => Meaning::Sequence(Ok(sequence.copy(alloc)?)),
            Meaning::Sequence(Err(fault)) => Meaning::Sequence(Err(*fault)),
            Meaning::Property(Ok(formula)) => Meaning::Property(Ok(formula.copy(alloc)?)),
            Meaning::Property(Err(fault)) => Meaning::Property(Err(*fault)),
        })
    }
}
