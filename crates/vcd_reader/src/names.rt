ghost use Rattle.std.specs.Prelude.{◌≡◌, ◌<◌, map, IfOk};
ghost use Rattle.vcd_reader.specs.Declarations.{path_of, name_of};

use crate::ranges::reference;
use psl_base::{NoMemory, Text, add_bytes};
use psl_tree::Name;
use std::alloc::Global;

/// The name that a `$var` gives a signal of so many bits, in some scopes and by its reference.
pub fn name(
    alloc: Global,
    scopes: &[&[u8]],
    signal: u32,
    size: u32,
    text: &[u8],
) -> Result<Name, NoMemory>
    requires { 0 < size }
    ensures { IfOk result (λ name. name ≡ name_of (map (λ scope. scope.now) scopes.now) signal size text.now) }
{
    let (len, range) = reference(text, size);
    let path = path(alloc, scopes, &text[..len])?;
    Ok(Name {
        text: Text::from_vec(path),
        signal,
        left: range.left,
        right: range.right,
    })
}

/// The scopes and a text, joined by dots.
fn path(alloc: Global, scopes: &[&[u8]], text: &[u8]) -> Result<Vec<u8>, NoMemory>
    ensures { IfOk result (λ path. path.items ≡ path_of (map (λ scope. scope.now) scopes.now) text.now) }
{
    let mut path = Vec::new(alloc);
    for scope in scopes {
        add_bytes(&mut path, scope)?;
        path.push(b'.')?;
    }
    add_bytes(&mut path, text)?;
    Ok(path)
}
