ghost use Rattle.std.specs.Prelude.{◌≡◌, ◌<◌, ◌^◌, Some};
ghost use Rattle.std.specs.Option.{option_copied};
ghost use Rattle.psl_tree.specs.Names.{AtomInRange, first_name, index_of, indices};

use psl_tree::{Atom, Name};

// The first name of a signal.
fn first_name<'a>(names: &'a [Name], signal: u32) -> Option<&'a Name>
    ensures { option_copied result ≡ first_name names.now signal }
{
    names.iter().find(|name| name.signal == signal)
}

// The first name of an atom's signal.
pub(crate) fn name_of<'a>(names: &'a [Name], atom: &Atom) -> &'a Name
    requires { AtomInRange names.now atom.now }
    ensures first { first_name names.now atom.now.signal ≡ Some result.now }
    ensures within { atom.now.bit < indices result.now }
{
    match first_name(names, atom.signal) {
        Some(name) => name,
        None => unreachable!(),
    }
}

// The index that stands for a bit.
pub(crate) fn index_of(name: &Name, bit: u32) -> u32
    requires { bit < indices name.now }
    ensures { result ≡ index_of name.now bit }
{
    if name.left < name.right {
        name.right - bit
    } else {
        name.right + bit
    }
}
