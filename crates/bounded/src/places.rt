// Where the bits of places stand.
ghost use Rattle.std.specs.Prelude.{◌≡◌, ◌+◌, ◌*◌, ◌<◌, ◌≤◌, suc, false, length, map, IsTrue};
ghost use Rattle.std.specs.List.{range_with_len};
ghost use Rattle.alternating_theory.specs.Obligations.{obligation_at};
ghost use Rattle.bounded_theory.specs.Digits.{number_width};
ghost use Rattle.clauses.specs.declared.flat.TheConstants.{MOST_VARIABLES};
ghost use Rattle.clauses.specs.Literals.{is_literal};
ghost use Rattle.bounded.specs.Places as spec;
ghost use Rattle.bounded.specs.Places.{bits_before, place_bits};

use alternating::Alternating;
use psl_base::Numbers;

/// Where the bits of places stand, of which all are variables.
pub(crate) struct Places<'a> {
    pub automaton: &'a Alternating,
    /// How many valuations a run has.
    pub last: u32,
    /// How many variables there are before the bits of the first place.
    pub before: u32,
    /// How many bits a place has.
    pub bits: u32,
    pub ghost bits_are: { bits ≡ place_bits automaton.now },
    /// How many digits a number has.
    pub digits: u32,
    pub ghost digits_are: { digits ≡ number_width (length automaton.now.obligations) },
    /// How many bits of a place come before those of each obligation.
    pub starts: Numbers,
    pub ghost starts_are: { starts
        ≡ map (bits_before automaton.now) (range_with_len 0 (length automaton.now.obligations)) },
    pub ghost room: { before + (suc (suc last) * bits + last) ≤ MOST_VARIABLES },
}

// Written out, so that a caller's proof sees one call where a value is dropped.
impl Drop for Places<'_> {
    fn drop(self) {
        let Places {
            automaton: _,
            last: _,
            before: _,
            bits: _,
            digits: _,
            starts: _,
        } = self;
    }
}

impl Places<'_> {
    // How many variables there are before a bit of a place.
    fn base(&self, place: u32, bit: u32) -> u32
        requires place { place < suc (suc self.now.last) }
        requires bit { bit < self.now.bits }
        ensures is { result ≡ self.now.before + place * self.now.bits + bit }
        ensures few { result < MOST_VARIABLES }
    {
        self.before + place * self.bits + bit
    }

    /// The literal of a place's bit.
    pub fn bit(&self, place: u32, bit: u32) -> i32
        requires place { place < suc (suc self.now.last) }
        requires bit { bit < self.now.bits }
        ensures is { result ≡ spec.bit_at self.now.automaton.now self.now.before place bit }
        ensures literal { IsTrue (is_literal result) }
    {
        (self.base(place, bit) + 1) as i32
    }

    /// The loop begins with the valuation of a place.
    pub fn begins(&self, place: u32) -> i32
        requires { place < self.now.last }
        ensures is { result ≡ spec.begins_at self.now.automaton.now self.now.last self.now.before place }
        ensures literal { IsTrue (is_literal result) }
    {
        (self.before + (self.last + 2) * self.bits + place + 1) as i32
    }

    // How many bits of a place come before those of an obligation.
    fn start(&self, number: u32) -> u32
        requires { number < length self.now.automaton.now.obligations }
        ensures is { result ≡ bits_before self.now.automaton.now number }
        ensures within { result < self.now.bits }
    {
        *self.starts.at(number as usize)
    }

    /// Whether an obligation is owed at a place.
    pub fn owed(&self, place: u32, number: u32) -> i32
        requires place { place < suc (suc self.now.last) }
        requires number { number < length self.now.automaton.now.obligations }
        ensures is { result ≡ spec.owed_at self.now.automaton.now self.now.before place number }
        ensures literal { IsTrue (is_literal result) }
    {
        self.bit(place, self.start(number))
    }

    /// How many variables there are before the digits of an obligation's number at a place.
    pub fn before_digits(&self, place: u32, number: u32) -> u32
        requires place { place < suc (suc self.now.last) }
        requires number { number < length self.now.automaton.now.obligations }
        ensures { result ≡ suc (self.now.before + place * self.now.bits + bits_before self.now.automaton.now number) }
    {
        self.base(place, self.start(number)) + 1
    }
}
