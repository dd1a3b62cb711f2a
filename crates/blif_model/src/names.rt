ghost use Rattle.std.specs.Prelude.{◌≡◌, ◌+◌, ◌<◌, ◌≤◌, ◌^◌, ◌∷◌, ◌++◌, ℕ, List, [], true, length, map, slice_get, slice_index_or, min, Some, IfOk, IfSome, IfNone, OnOk, OnErr};
ghost use Rattle.std.specs.BTreeMap.{IsUnchanged};
ghost use Rattle.blif_model.specs.Hashes.{end_of, hash_of, start_of, AreDistinct, AreTaken, Finds, IsPlaceOf, Seats};
ghost use Rattle.blif_model.specs.declared.names.TheConstants.{PROBES};
ghost use Rattle.blif_model.specs.Names.{is_new, place_of};

use psl_base::NoMemory;
use std::alloc::Global;
use std::collections::BTreeMap;
use std::marker::Model;

/// How many distinct names of signals a netlist has at most.
pub const SIGNAL_LIMIT: usize = 65_536;

// At how many slots a name is sought. At most half of all slots are taken, so hardly any name finds all of its own taken,
// unless somebody chose the names so.
const PROBES: usize = 8;

// By this odd number, 2^64 over the golden ratio, hashes that are neighbours are spread evenly (Knuth, The Art of Computer
// Programming, volume 3, 1973, section 6.4).
const SPREAD: u64 = 0x9E37_79B9_7F4A_7C15;

/// Names of which no two are equal, numbered from 0 in the order in which they came.
///
/// Whoever writes a netlist can choose names that share their hash, so only a few slots are gone through: a name that
/// finds them taken is in an ordered map, whose time bounds that of a search.
pub struct NameTable<'a> {
    // 0 where a slot is empty, else one more than the number of its name.
    slots: Vec<u32>,
    // The numbers of the names for which no slot was empty.
    others: BTreeMap<&'a [u8], usize>,
    texts: Vec<&'a [u8]>,
}

impl<'a> Model for NameTable<'a> {
    ghost use Rattle.std.specs.Prelude.{List, ℕ, map};
    ghost use Rattle.blif_model.specs.Hashes.{Finds};

    ghost Value = { List (List ℕ) };

    ghost view = { λ table. map (λ text. text.now) table.texts.items };

    ghost invariant = { λ table. Finds (map (λ text. text.now) table.texts.items) table.slots.items table.others };
}

// Written out, so that a caller's proof sees one call where a value is dropped.
impl Drop for NameTable<'_> {
    fn drop(self) {
        let NameTable {
            slots: _,
            others: _,
            texts: _,
        } = self;
    }
}

impl<'a> NameTable<'a> {
    /// No names.
    pub fn new(alloc: Global) -> NameTable<'a>
        ensures { result ≡ [] }
    {
        NameTable {
            slots: Vec::new(alloc),
            others: BTreeMap::new(alloc),
            texts: Vec::new(alloc),
        }
    }

    /// How many names there are.
    pub fn len(&self) -> usize
        ensures { result ≡ length self.now }
    {
        self.texts.as_slice().len()
    }

    /// The name of a number.
    pub fn at(&self, number: usize) -> &'a [u8]
        requires { number < length self.now }
        ensures { slice_get self.now number ≡ Some result.now }
    {
        self.texts[number]
    }

    /// The number of a name, if it is there.
    pub fn find(&self, name: &[u8]) -> Option<usize>
        ensures is { result ≡ place_of self.now name.now }
        ensures within { IfSome result (λ number. number < length self.now) }
    {
        sought(
            self.slots.as_slice(),
            &self.others,
            self.texts.as_slice(),
            name,
        )
    }

    /// One name more, which is not there yet.
    ///
    /// # Errors
    ///
    /// `NoMemory` if memory is refused, or if there are 4,294,967,295 names. A text has fewer bytes than that.
    pub fn add(&mut self, name: &'a [u8]) -> Result<(), NoMemory>
        requires { is_new self.old name.now ≡ true }
        ensures ok { OnOk result (self.new ≡ self.old ++ name.now ∷ []) }
        ensures err { OnErr result (self.new ≡ self.old) }
    {
        self.grow()?;
        let number = self.texts.len();
        self.texts.push(name)?;
        match seat(self.slots.as_mut_slice(), &mut self.others, name, number) {
            Ok(()) => Ok(()),
            Err(refused) => {
                let _ = self.texts.pop();
                Err(refused)
            }
        }
    }

    // More slots, where half of them are taken. So many are made that the names may double until more are needed, whether
    // they are in slots or not: no choice of names makes them be sorted in anew often.
    fn grow(&mut self) -> Result<(), NoMemory>
        ensures { self.new ≡ self.old }
    {
        let count = self.texts.len();
        if count.saturating_sub(self.others.len()) < self.slots.len() / 2 {
            return Ok(());
        }
        let alloc = *self.texts.allocator();
        let mut slots = vec![in alloc; 0u32; count.saturating_mul(4).saturating_add(2 * PROBES)]?;
        let mut others = BTreeMap::new(alloc);
        seat_all(slots.as_mut_slice(), &mut others, self.texts.as_slice())?;
        self.slots = slots;
        self.others = others;
        Ok(())
    }
}

// All names, of which none is there yet.
fn seat_all<'a>(
    slots: &mut [u32],
    others: &mut BTreeMap<&'a [u8], usize>,
    texts: &[&'a [u8]],
) -> Result<(), NoMemory>
    requires distinct { AreDistinct (map (λ text. text.now) texts.now) }
    requires none { Seats (map (λ text. text.now) texts.now) 0 slots.old others.old }
    ensures { OnOk result (Finds (map (λ text. text.now) texts.now) slots.new others.new) }
{
    for (number, text) in texts.iter().enumerate() {
        seat(slots, others, *text, number)?;
    }
    Ok(())
}

// The next name, in the first empty one of its slots or among the others.
fn seat<'a>(
    slots: &mut [u32],
    others: &mut BTreeMap<&'a [u8], usize>,
    name: &'a [u8],
    number: usize,
) -> Result<(), NoMemory>
    ensures ok { (names : List (List ℕ)) → Seats names number slots.old others.old → slice_index_or names number [] ≡ name.now
        → place_of names name.now ≡ Some number → OnOk result (Seats names (number + 1) slots.new others.new) }
    ensures slots { OnErr result (slots.new ≡ slots.old) }
    ensures others { OnErr result (IsUnchanged others.old others.new) }
{
    // A slot holds no larger number.
    if number >= u32::MAX as usize {
        return Err(NoMemory);
    }
    match empty_of(slots, name) {
        Some(place) => slots[place] = number as u32 + 1,
        None => {
            others.insert(name, number)?;
        }
    }
    Ok(())
}

// The place of the first empty slot of a name.
fn empty_of(slots: &[u32], name: &[u8]) -> Option<usize>
    ensures some { IfSome result (λ place. IsPlaceOf slots.now name.now 0 place) }
    ensures none { IfNone result (AreTaken slots.now name.now (end_of (length slots.now) name.now)) }
{
    let start = start_of(slots.len(), name);
    for place in start..end_of(slots.len(), start) {
        if slots[place] == 0 {
            return Some(place);
        }
    }
    None
}

// The number of a name.
fn sought(
    slots: &[u32],
    others: &BTreeMap<&[u8], usize>,
    texts: &[&[u8]],
    name: &[u8],
) -> Option<usize>
    requires { Finds (map (λ text. text.now) texts.now) slots.now others.now }
    ensures { result ≡ place_of (map (λ text. text.now) texts.now) name.now }
{
    let start = start_of(slots.len(), name);
    for place in start..end_of(slots.len(), start) {
        let slot = slots[place];
        if slot == 0 {
            return None;
        }
        let number = slot as usize - 1;
        if texts[number] == name {
            return Some(number);
        }
    }
    others.get(name).copied()
}

// The place of the first slot of a name, among so many.
fn start_of(size: usize, name: &[u8]) -> usize
    ensures is { result ≡ start_of size name.now }
    ensures within { result ≤ size }
{
    let spread = hash_of(name).wrapping_mul(SPREAD);
    let starts = size.saturating_sub(PROBES - 1);
    ((u128::from(spread) * starts as u128) >> 64) as usize
}

// Where the slots of a name end that begin at a place.
fn end_of(size: usize, start: usize) -> usize
    requires { start ≤ size }
    ensures { result ≡ min (start + PROBES) size }
{
    start + PROBES.min(size - start)
}

// The hash of a name. Those of names that follow each other, as `n17` and `n18`, are neighbours, so they are spread.
fn hash_of(name: &[u8]) -> u64
    ensures { result ≡ hash_of name.now }
{
    let mut hash = 0u64;
    for byte in name {
        hash = hash.wrapping_mul(257).wrapping_add(u64::from(*byte));
    }
    hash
}
