// The texts of paths.
ghost use Rattle.std.specs.Prelude.{◌≡◌, ◌++◌, IfOk, OnOk};
ghost use Rattle.psl_layer_theory.specs.Texts as spec;

use psl_base::{NoMemory, Text, add_bytes, add_number};
use psl_lexer::Token;
use std::alloc::Global;

/// The names of a path, joined by dots.
pub fn path_text(alloc: Global, path: &[Token]) -> Result<Text, NoMemory>
    ensures { IfOk result (λ text. text ≡ spec.path_text path.now) }
{
    let mut text = Vec::new(alloc);
    if let [first, more @ ..] = path {
        add_bytes(&mut text, first.text.as_slice())?;
        add_names(&mut text, more)?;
    }
    Ok(Text::from_vec(text))
}

// Adds names at the end of a text, each behind a dot.
fn add_names(text: &mut Vec<u8>, more: &[Token]) -> Result<(), NoMemory>
    ensures { OnOk result (text.new.items ≡ text.old.items ++ spec.dotted more.now) }
{
    for name in more {
        add_bytes(text, b".")?;
        add_bytes(text, name.text.as_slice())?;
    }
    Ok(())
}

/// A text followed by an index in square brackets, in decimal digits.
pub(crate) fn indexed_text(alloc: Global, text: &[u8], index: u64) -> Result<Text, NoMemory>
    ensures { IfOk result (λ new. new ≡ spec.indexed_text text.now index) }
{
    let mut new = Vec::new(alloc);
    add_bytes(&mut new, text)?;
    add_bytes(&mut new, b"[")?;
    add_number(&mut new, index)?;
    add_bytes(&mut new, b"]")?;
    Ok(Text::from_vec(new))
}
