// What connections mention of the model in which they stand.
ghost use Rattle.std.specs.Prelude.{◌≡◌, map, All, IfOk};
ghost use Rattle.std.specs.Option.{option_to_list};
ghost use Rattle.blif_model.specs.FileKnown.{IsPlacementWithin, placing_in};
ghost use Rattle.blif_model.specs.Names.{place_of};
ghost use Rattle.blif_model.specs.Scanning.{IsWithin, word_of};
ghost use Rattle.blif_linking.specs.Actuals.{actual_in, mention_offered, mentions_at, mentions_in};
ghost use Rattle.blif_linking.specs.Links.{link_of};

use crate::interface::Interface;
use crate::library::Library;
use crate::links::link_of;
use crate::role::Role;
use blif_model::{NoMemory, PlacementLine, Span, text_of};
use std::alloc::Global;

/// The actual of an input or an output.
#[derive(Clone, Copy)]
pub(crate) struct Actual<'a> {
    /// The connection.
    pub word: Span,
    /// The name that it mentions.
    pub name: &'a [u8],
    /// Whether it is connected with an output, which drives it.
    pub drives: bool,
}

/// The actuals of a placement's inputs and outputs, in the order of its connections.
pub(crate) fn actuals_at<'a>(
    alloc: Global,
    library: &Library<'_, 'a, '_, '_>,
    line: &PlacementLine,
) -> Result<Vec<Actual<'a>>, NoMemory>
    requires { IsPlacementWithin library.now.whole.now line.now }
    ensures { IfOk result (λ actuals. map (actual_in library.now.whole.now) actuals.items
        ≡ mentions_at (place_of library.now.titles.now) library.now.interfaces.now (placing_in library.now.whole.now line.now)) }
{
    let [title, connections @ ..] = line.words.as_slice() else {
        return Ok(Vec::new(alloc));
    };
    match library.offered(*title) {
        Some(interface) => actuals_in(alloc, library.whole, interface, connections),
        None => Ok(Vec::new(alloc)),
    }
}

fn actuals_in<'a>(
    alloc: Global,
    whole: &'a [u8],
    interface: &Interface,
    words: &[Span],
) -> Result<Vec<Actual<'a>>, NoMemory>
    requires { All (IsWithin whole.now) words.now }
    ensures { IfOk result (λ actuals. map (actual_in whole.now) actuals.items
        ≡ mentions_in interface.now (map (word_of whole.now) words.now)) }
{
    let mut actuals = Vec::new(alloc);
    for word in words {
        if let Some(actual) = actual_of(whole, interface, *word) {
            actuals.push(actual)?;
        }
    }
    Ok(actuals)
}

// The actual of a connection, where it is of an input or an output.
fn actual_of<'a>(whole: &'a [u8], interface: &Interface, word: Span) -> Option<Actual<'a>>
    requires { IsWithin whole.now word }
    ensures { map (actual_in whole.now) (option_to_list result)
        ≡ mention_offered interface.now (word_of whole.now word) (link_of (word_of whole.now word).text) }
{
    let link = link_of(text_of(whole, word))?;
    let drives = match interface.role_of(link.formal)? {
        Role::Input => false,
        Role::Output => true,
        Role::Clock => return None,
    };
    Some(Actual {
        word,
        name: link.actual,
        drives,
    })
}
