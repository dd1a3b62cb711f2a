// The models of a text, as those see them who place them.
ghost use Rattle.std.specs.Prelude.{◌≡◌, option_and_then, slice_get};
ghost use Rattle.std.specs.Option.{option_map};
ghost use Rattle.blif_model.specs.Names.{place_of};
ghost use Rattle.blif_model.specs.Scanning.{IsWithin, word_of};

use crate::interface::Interface;
use blif_model::{NameTable, Span, text_of};

/// A text with the names of its models and what these offer.
#[derive(Clone, Copy)]
pub(crate) struct Library<'b, 'a, 't, 'i> {
    /// The text.
    pub whole: &'a [u8],
    /// The names of its models. The place of a name is the number of its model.
    pub titles: &'b NameTable<'t>,
    /// What each model offers.
    pub interfaces: &'b [Interface<'i>],
}

impl<'b, 'a, 't, 'i> Library<'b, 'a, 't, 'i> {
    /// What the model of a name offers.
    pub fn offered(&self, title: Span) -> Option<&'b Interface<'i>>
        requires { IsWithin self.now.whole.now title }
        ensures { option_map (λ interface. interface.now) result
            ≡ option_and_then (slice_get self.now.interfaces.now) (place_of self.now.titles.now (word_of self.now.whole.now title).text) }
    {
        match self.titles.find(text_of(self.whole, title)) {
            Some(number) => self.interfaces.get(number),
            None => None,
        }
    }
}
