//! The words after the program's name, read into a command. The first word names the command; `clap`
//! reads those after it.
#![tactic(auto)]

ghost use Rattle.std.specs.Prelude.{◌≡◌, ◌∷◌, ◌<◌, ◌≤◌, ◌^◌, [], codes, decimal, false, true, ℕ, List, map, IfOk, IfErr, string_bytes};
ghost use Rattle.command_line.specs.Commands.{IsCommand, IsNoCommand, IsRefused, Meaning, meaning_of, most_seed};
ghost use Rattle.command_line.specs.Commands.Meaning.{wave as a_wave, gen as a_gen, show as a_show, show_netlist as a_netlist, prove as a_proof, check as a_check, replay as a_replay};
ghost use Rattle.command_line.specs.Ranges.{AreInRange, IsInRange};
ghost use Rattle.command_line.specs.Plain.{ArePlain, IsPlain, certificates_in, limits_of_covers, limits_of_depth, limits_of_progress, limits_of_reach, recordings_in, to_check, usual_limits};
ghost use Rattle.command_line.specs.Plain.{vectors_in, with_buses, with_depth, with_options, with_points, with_recordings, with_unknown};

mod commands;
mod kinds;
mod number;
mod parsing;

use commands::read_values;
use kinds::kind_named;
use parsing::parse;
use std::alloc::{AllocError, Global};
use thiserror::Error;

/// What the program is asked to do. Names of files are as the words give them.
#[derive(Clone, Copy, Debug, PartialEq, Eq)]
pub enum Command<'a> {
    /// Judges the assertions of a text on a recording.
    Wave {
        unit: &'a str,
        recording: &'a str,
        unknown: Unknown,

        /// Whether it is asked for where verdicts are settled: `--where`.
        points: bool,
    },

    /// Makes a recording of so many samples from a seed below 2^31, and judges it.
    Gen {
        seed: u32,
        samples: u32,
    },

    /// Prints what each directive of a text means over the names of a recording.
    Show {
        unit: &'a str,
        names: &'a str,
    },

    /// Prints what each directive of a text means over the names of a netlist.
    ShowNetlist {
        unit: &'a str,
        netlist: &'a str,
    },

    /// Proves the assertions of a text of a netlist, or finds runs that violate them; and asks its covers where the limits
    /// say so.
    Prove {
        unit: &'a str,
        netlist: &'a str,
        limits: Limits,
        evidence: Evidence<'a>,
    },

    /// Checks the certificate of a directive of a text, which are numbered from 1, over a netlist.
    Check {
        unit: &'a str,
        netlist: &'a str,
        number: u32,
        certificate: &'a str,
    },

    /// Tells whether a recording is a path of a netlist, and judges the assertions of a text on it.
    Replay {
        unit: &'a str,
        netlist: &'a str,
        recording: &'a str,
    },
}

/// The files in which `prove` leaves what it found.
#[derive(Clone, Copy, Debug, PartialEq, Eq)]
pub struct Evidence<'a> {
    /// The certificate of a proof of directive N is to be written to the name `PREFIX.N.cert`, where there is a PREFIX.
    pub cert: Option<&'a str>,

    /// The recording of a run of directive N is to be written to the name `PREFIX.N.vcd`, where there is one.
    pub vcd: Option<&'a str>,

    /// How often the loop of a run is written in its recording, from 1 to 16.
    pub loops: u32,

    /// Whether each bus is one vector in it: `--buses`.
    pub buses: bool,
}

/// How a bit of a recording reads that is neither 0 nor 1.
#[derive(Clone, Copy, Debug, PartialEq, Eq)]
pub enum Unknown {
    /// As 0: `zero`, which is so where nothing else is said.
    Zero,

    /// As 1: `one`.
    One,

    /// As 0, but where an assertion asks for it, it is a fault of the recording: `refuse`.
    Refuse,
}

/// How far the search for proofs and violations goes, and of which directives.
#[derive(Clone, Copy, Debug, PartialEq, Eq)]
pub struct Limits {
    /// The most positions of a run that is looked for, from 1 to 1,000.
    pub depth: u32,

    /// The most visits that a proof by induction counts, from 0 to 16.
    pub visits: u32,

    /// The most lemmas of one query, from 1 to 10,000,000.
    pub steps: u64,

    /// Whether clauses that hold of all that can be reached are sought too: `--reach`.
    pub reach: bool,

    /// Whether covers are asked too: `--covers`.
    pub covers: bool,

    /// Whether it is told while the search goes on how far it has come: `--progress`.
    pub progress: bool,
}

/// Why words give no command.
#[derive(Clone, Copy, Debug, PartialEq, Eq, Error)]
pub enum WordsFault {
    /// The first word is no command's name, or the words after it are not as the command wants them.
    #[error("the words are no command")]
    Usage,

    /// The allocator refused memory.
    #[error("out of memory")]
    NoMemory,
}

impl From<AllocError> for WordsFault {
    ghost use Rattle.command_line.specs.declared.WordsFault.TheVariants.{NoMemory as MemoryFault};

    ghost from_gives = { λ _ fault. fault ≡ MemoryFault };

    fn from(_refused: AllocError) -> WordsFault {
        WordsFault::NoMemory
    }
}

/// The command that the words after the program's name say; `most_samples` is the limit on samples.
///
/// # Errors
/// `Usage` where the words are no command: the first is none of `wave`, `gen`, `show`, `prove`, `check` and `replay`,
/// `clap` refuses those after it, a number is not in its decimal form or not in its range, or the word for unknown bits is
/// none of `zero`, `one` and `refuse`.
pub fn read_words<'a>(
    alloc: Global,
    words: &'a [String],
    most_samples: u32,
) -> Result<Command<'a>, WordsFault>
    // What is read is what the words say.
    ensures command { IfOk result (λ command. IsCommand most_samples (map string_bytes words.entry.now) (meaning_of command)) }

    // Words are refused only for a fault of theirs ..
    ensures cause { IfErr result (λ fault. fault ≡ WordsFault.Usage → IsRefused most_samples (map string_bytes words.entry.now)) }

    // .. and then they are no command.
    ensures usage { IfErr result (λ fault. fault ≡ WordsFault.Usage → IsNoCommand most_samples (map string_bytes words.entry.now)) }
{
    let Some(first) = words.first() else {
        return Err(WordsFault::Usage);
    };
    let Some(kind) = kind_named(first.as_str()) else {
        return Err(WordsFault::Usage);
    };
    let matches = parse(alloc, kind, first.as_str(), words)?;
    read_values(kind, &matches, most_samples)
}

/// Laws of the definitions, which run nothing: words are one command at most, and none where they are
/// refused, and the numbers of a command are in their ranges.
pub fn one_command()
    ensures one { (most : ℕ) (words : List (List ℕ)) (first second : Meaning) → most < 2 ^ 32 → IsCommand most words first → IsCommand most words second → first ≡ second }
    ensures refused { (most : ℕ) (words : List (List ℕ)) → IsRefused most words → IsNoCommand most words }
    ensures ranges { (most : ℕ) (words : List (List ℕ)) (meaning : Meaning) → IsCommand most words meaning → IsInRange most meaning }
{}

/// Laws of the definitions, which run nothing. Words that do not begin with a hyphen are read as they stand,
/// as all are behind `--`, and a number in its range is read from its decimal form.
pub fn plain_words()
    ensures wave { (most : ℕ) (unit recording : List ℕ) → IsPlain unit → IsPlain recording → IsCommand most (codes "wave" ∷ unit ∷ recording ∷ []) (a_wave unit recording Unknown.Zero false) }
    ensures unknown { (most : ℕ) (unit recording : List ℕ) (unknown : Unknown) → IsPlain unit → IsPlain recording
        → IsCommand most (with_unknown unit recording unknown) (a_wave unit recording unknown false) }
    ensures points { (most : ℕ) (unit recording : List ℕ) → IsPlain unit → IsPlain recording
        → IsCommand most (codes "wave" ∷ unit ∷ recording ∷ codes "--where" ∷ []) (a_wave unit recording Unknown.Zero true) }
    ensures both { (most : ℕ) (unit recording : List ℕ) (unknown : Unknown) → IsPlain unit → IsPlain recording
        → IsCommand most (with_points unit recording unknown) (a_wave unit recording unknown true) }
    ensures show { (most : ℕ) (unit names : List ℕ) → IsPlain unit → IsPlain names → IsCommand most (codes "show" ∷ unit ∷ names ∷ []) (a_show unit names) }
    ensures netlist { (most : ℕ) (unit netlist : List ℕ) → IsPlain unit → IsPlain netlist → IsCommand most (codes "show" ∷ unit ∷ netlist ∷ codes "--netlist" ∷ []) (a_netlist unit netlist) }
    ensures prove { (most : ℕ) (unit netlist : List ℕ) → IsPlain unit → IsPlain netlist → IsCommand most (codes "prove" ∷ unit ∷ netlist ∷ []) (a_proof unit netlist usual_limits (certificates_in None)) }
    ensures depth { (most : ℕ) (unit netlist : List ℕ) (depth : ℕ) → IsPlain unit → IsPlain netlist → 1 ≤ depth → depth ≤ 1000
        → IsCommand most (with_depth unit netlist depth) (a_proof unit netlist (limits_of_depth depth) (certificates_in None)) }
    ensures reach { (most : ℕ) (unit netlist : List ℕ) → IsPlain unit → IsPlain netlist → IsCommand most (codes "prove" ∷ unit ∷ netlist ∷ codes "--reach" ∷ []) (a_proof unit netlist limits_of_reach (certificates_in None)) }
    ensures covers { (most : ℕ) (unit netlist : List ℕ) → IsPlain unit → IsPlain netlist → IsCommand most (codes "prove" ∷ unit ∷ netlist ∷ codes "--covers" ∷ []) (a_proof unit netlist limits_of_covers (certificates_in None)) }
    ensures progress { (most : ℕ) (unit netlist : List ℕ) → IsPlain unit → IsPlain netlist → IsCommand most (codes "prove" ∷ unit ∷ netlist ∷ codes "--progress" ∷ []) (a_proof unit netlist limits_of_progress (certificates_in None)) }
    ensures options { (most : ℕ) (unit netlist cert : List ℕ) (limits : Limits) → ArePlain unit netlist cert → AreInRange limits
        → IsCommand most (with_options unit netlist limits cert) (a_proof unit netlist limits (certificates_in (Some cert))) }
    ensures recordings { (most : ℕ) (unit netlist vcd : List ℕ) (loops : ℕ) → ArePlain unit netlist vcd → 1 ≤ loops → loops ≤ 16
        → IsCommand most (with_recordings unit netlist vcd loops) (a_proof unit netlist usual_limits (recordings_in vcd loops)) }
    ensures buses { (most : ℕ) (unit netlist vcd : List ℕ) → ArePlain unit netlist vcd → IsCommand most (with_buses unit netlist vcd) (a_proof unit netlist usual_limits (vectors_in vcd)) }
    ensures replay { (most : ℕ) (unit netlist recording : List ℕ) → ArePlain unit netlist recording → IsCommand most (codes "replay" ∷ unit ∷ netlist ∷ recording ∷ []) (a_replay unit netlist recording) }
    ensures check { (most : ℕ) (unit netlist proof : List ℕ) (number : ℕ) → ArePlain unit netlist proof → 1 ≤ number → number < 2 ^ 32 → IsCommand most (to_check unit netlist number proof) (a_check unit netlist number proof) }
    ensures wave_behind { (most : ℕ) (unit recording : List ℕ) → IsCommand most (codes "wave" ∷ codes "--" ∷ unit ∷ recording ∷ []) (a_wave unit recording Unknown.Zero false) }
    ensures show_behind { (most : ℕ) (unit names : List ℕ) → IsCommand most (codes "show" ∷ codes "--" ∷ unit ∷ names ∷ []) (a_show unit names) }
    ensures generate { (most seed samples : ℕ) → most < 2 ^ 32 → seed ≤ most_seed → 1 ≤ samples → samples ≤ most → IsCommand most (codes "gen" ∷ decimal seed ∷ decimal samples ∷ []) (a_gen seed samples) }
{}
