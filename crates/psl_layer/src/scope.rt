// The statements before a place, and what they declare.
ghost use Rattle.std.specs.Prelude.{◌≡◌, IfOk, OnOk};
ghost use Rattle.std.specs.Option.{is_some};
ghost use Rattle.psl_layer.specs.Built.{built_at};
ghost use Rattle.psl_layer.specs.Declaring.{IsNamed};

use crate::meaning::Meaning;
use psl_base::NoMemory;
use psl_grammar::Statement;
use psl_sugar::{MeasuredBool, SugarFault};
use std::alloc::Global;
use std::collections::BTreeMap;

/// A default clock, if there is one.
pub(crate) type Clock = Option<Result<MeasuredBool, SugarFault>>;

/// Declared names with what they stand for, ordered by their texts.
pub(crate) type Declared<'a> = BTreeMap<&'a [u8], Meaning>;

/// The statements before a place, and what they declare.
#[derive(Drop)]
pub(crate) struct Scope<'a> {
    /// The statements. Contracts say by them what the rest is.
    pub before: &'a [Statement],
    pub declared: Declared<'a>,
    /// The first of them that declares the default clock counts.
    pub clock: Clock,
}

/// Adds a declared name. Of two with one text the first counts.
pub(crate) fn declare<'a>(
    declared: &mut Declared<'a>,
    text: &'a [u8],
    meaning: Meaning,
) -> Result<(), NoMemory>
    ensures { OnOk result (IsNamed declared.old text.now meaning declared.new) }
{
    if declared.contains_key(text) {
        return Ok(());
    }
    declared.insert(text, meaning)?;
    Ok(())
}

/// What a text is declared as, if it is declared.
pub(crate) fn declared_meaning(
    alloc: Global,
    scope: &Scope,
    text: &[u8],
) -> Result<Option<Meaning>, NoMemory>
    ensures { IfOk result (λ found. found ≡ built_at scope.now.declared text.now) }
{
    match scope.declared.get(text) {
        Some(meaning) => Ok(Some(meaning.copy(alloc)?)),
        None => Ok(None),
    }
}

/// Whether a text is declared.
pub(crate) fn is_declared(scope: &Scope, text: &[u8]) -> bool
    ensures { result ≡ is_some (built_at scope.now.declared text.now) }
{
    scope.declared.contains_key(text)
}
