ghost use Rattle.std.specs.Prelude.{◌≡◌, ◌<◌, ℕ, ◌⊎◌, true, false, length, List, Ok, Err};
ghost use Rattle.psl_base.specs.Tokens.{tokens};
ghost use Rattle.vcd_reader.specs.Declarations.{Declared};
ghost use Rattle.vcd_reader.specs.FirstFault.{IsFaultless, IsFirst};
ghost use Rattle.vcd_reader.specs.Meaning.{dump_by, end_of, reading, sampled_of, unknown_in};
ghost use Rattle.vcd_reader.specs.Rows.{kept_as};
ghost use Rattle.vcd_reader.specs.Running.{run_whole};
ghost use Rattle.vcd_reader.specs.Sampled.{Sampled, bit_at, is_one_under, time_of_sample, unknown_at};
ghost use Rattle.vcd_reader.specs.Standing.{Told, Telling};
ghost use Rattle.vcd_reader.specs.Unknowns.{AreRead};
ghost use Rattle.vcd_reader.specs.declared.changes.Change.{Change};
ghost use Rattle.vcd_reader.specs.declared.fault.VcdFault.{VcdFault};
ghost use Rattle.vcd_reader.specs.declared.unknown.Unknown.{Unknown};

/// A law of the definitions: a text is read as a recording exactly where no token has a fault and it may
/// end, and that is what its tokens say; it is refused with a fault exactly where that is the fault of a
/// token, or of the end, before which no token has one.
pub fn first_fault_law()
    ensures recording { (unknown : Unknown) (bytes : List ℕ) → IsFaultless (tokens bytes) → reading unknown bytes ≡ Ok (sampled_of unknown (dump_by (tokens bytes))) }
    ensures faultless { (unknown : Unknown) (bytes : List ℕ) (recording : Sampled) → reading unknown bytes ≡ Ok recording → IsFaultless (tokens bytes) × (sampled_of unknown (dump_by (tokens bytes)) ≡ recording) }
    ensures fault { (unknown : Unknown) (bytes : List ℕ) (found : VcdFault) → IsFirst (end_of bytes) (tokens bytes) found → reading unknown bytes ≡ Err found }
    ensures first { (unknown : Unknown) (bytes : List ℕ) (found : VcdFault) → reading unknown bytes ≡ Err found → IsFirst (end_of bytes) (tokens bytes) found }
{}

/// A law of the definitions: a text has a meaning or a first fault, and never both.
pub fn one_meaning_law()
    ensures some { (unknown : Unknown) (bytes : List ℕ) → ((recording : Sampled) × (reading unknown bytes ≡ Ok recording)) ⊎ ((found : VcdFault) × (reading unknown bytes ≡ Err found)) }
    ensures one { (unknown : Unknown) (bytes : List ℕ) (recording : Sampled) (found : VcdFault) → reading unknown bytes ≡ Ok recording → reading unknown bytes ≡ Err found → ⊥ }
{}

/// A law of the definitions: how unknown bits read changes nothing else of what a text says. Which bits are unknown is a matter
/// of the text alone; a bit that is known reads as itself, and an unknown one as it is told.
pub fn unknown_law()
    ensures same { (one other : Unknown) (bytes : List ℕ) (recording : Sampled) → reading one bytes ≡ Ok recording → reading other bytes ≡ Ok (record recording { unknown = other }) }
    ensures fault { (one other : Unknown) (bytes : List ℕ) (found : VcdFault) → reading one bytes ≡ Err found → reading other bytes ≡ Err found }
    ensures told { (unknown : Unknown) (bytes : List ℕ) (recording : Sampled) → reading unknown bytes ≡ Ok recording → recording.unknown ≡ unknown }
    ensures text { (unknown : Unknown) (bytes : List ℕ) (recording : Sampled) → reading unknown bytes ≡ Ok recording → (sample signal bit : ℕ) → unknown_at recording sample signal bit ≡ unknown_in bytes sample signal bit }
    ensures known { (other : Unknown) (recording : Sampled) (sample signal bit : ℕ) → unknown_at recording sample signal bit ≡ false → bit_at (record recording { unknown = other }) sample signal bit ≡ bit_at recording sample signal bit }
    ensures unknown { (recording : Sampled) (sample signal bit : ℕ) → unknown_at recording sample signal bit ≡ true → bit_at recording sample signal bit ≡ is_one_under recording.unknown }
{}

/// A law of the definitions: each sample has a place where its time is listed.
pub fn places_law()
    ensures { (unknown : Unknown) (bytes : List ℕ) (recording : Sampled) → reading unknown bytes ≡ Ok recording → length recording.places ≡ length recording.samples }
{}

/// A law of the definitions: each sample has a time, and a later sample a higher one.
pub fn times_law()
    ensures each { (unknown : Unknown) (bytes : List ℕ) (recording : Sampled) → reading unknown bytes ≡ Ok recording → length recording.times ≡ length recording.samples }
    ensures rise { (unknown : Unknown) (bytes : List ℕ) (recording : Sampled) → reading unknown bytes ≡ Ok recording → (sample later : ℕ) → sample < later → later < length recording.samples
        → time_of_sample recording sample < time_of_sample recording later }
{}

/// Values worked out by hand: how each letter reads, what stands to the left of a value, and where values are missing.
pub fn values_law()
    ensures { AreRead }
{}

/// A law of the definitions: reading token by token, from what was read before, says the same.
pub fn running_law()
    ensures recording { (unknown : Unknown) (bytes : List ℕ) (declared : Declared) (told : Told) (changes : List (List Change)) (starts : List ℕ)
        → run_whole bytes ≡ Ok (record { declared = declared; part = Telling told; changes = changes; starts = starts })
        → reading unknown bytes ≡ Ok (kept_as declared.names bytes told.samples changes starts unknown) }
    ensures fault { (unknown : Unknown) (bytes : List ℕ) (found : VcdFault) → run_whole bytes ≡ Err found → reading unknown bytes ≡ Err found }
{}
