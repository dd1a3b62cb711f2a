//! Each command, from the values of its words. A command that takes other words has a function here, and
//! its rows in `kinds`.

ghost use Rattle.std.specs.Prelude.{◌≡◌, ◌≤◌, ℕ, codes, IfOk, IfErr, IfSome, IsNone};
ghost use Rattle.clap.specs.Words.{first_value, found_of};
ghost use Rattle.command_line.specs.Chains.{HasRequired};
ghost use Rattle.command_line.specs.Commands.{AreLimits, AreUnnumbered, IsRead, IsUnknown};
ghost use Rattle.command_line.specs.Evidences.{IsEvidence, Wanted, evidence_of};
ghost use Rattle.command_line.specs.Kinds.{rules_of};

use crate::kinds::{Kind, unknown_named};
use crate::number::number_of;
use crate::parsing::{is_set, word};
use crate::{Command, Evidence, Limits, Unknown, WordsFault};
use clap::ArgMatches;

/// The largest seed.
const MOST_SEED: u32 = 0x7fff_ffff;

/// The largest number of a directive.
const MOST_NUMBER: u32 = 0xffff_ffff;

/// The largest depth of a proof.
const MOST_DEPTH: u32 = 1_000;

/// The largest number of visits.
const MOST_VISITS: u32 = 16;

/// The largest number of steps.
const MOST_STEPS: u32 = 10_000_000;

/// How often a loop is written at most.
const MOST_LOOPS: u32 = 16;

/// The command that the values of its words say.
pub fn read_values<'a>(
    kind: Kind,
    matches: &ArgMatches<'a>,
    most_samples: u32,
) -> Result<Command<'a>, WordsFault>
    requires { HasRequired (rules_of kind) (first_value (found_of matches.now)) }
    ensures command { IfOk result (IsRead most_samples (first_value (found_of matches.now)) kind) }
    ensures usage { IfErr result (λ _. AreUnnumbered most_samples (first_value (found_of matches.now)) kind) }
{
    match kind {
        Kind::Wave => wave(matches),
        Kind::Gen => gen_of(matches, most_samples),
        Kind::Show => Ok(show(matches)),
        Kind::Prove => prove(matches),
        Kind::Check => check(matches),
        Kind::Replay => Ok(replay(matches)),
    }
}

/// `wave UNIT RECORDING` with its option and its flag
fn wave<'a>(matches: &ArgMatches<'a>) -> Result<Command<'a>, WordsFault>
    requires { HasRequired (rules_of Kind.Wave) (first_value (found_of matches.now)) }
    ensures command { IfOk result (λ command. (most : ℕ) → IsRead most (first_value (found_of matches.now)) Kind.Wave command) }
    ensures usage { IfErr result (λ _. (most : ℕ) → AreUnnumbered most (first_value (found_of matches.now)) Kind.Wave) }
{
    let Some(unknown) = unknown_of(matches) else {
        return Err(WordsFault::Usage);
    };
    Ok(Command::Wave {
        unit: word(matches, "unit"),
        recording: word(matches, "recording"),
        unknown,
        points: is_set(matches, "where"),
    })
}

/// `gen SEED SAMPLES`
fn gen_of<'a>(matches: &ArgMatches, most_samples: u32) -> Result<Command<'a>, WordsFault>
    ensures command { IfOk result (IsRead most_samples (first_value (found_of matches.now)) Kind.Gen) }
    ensures usage { IfErr result (λ _. AreUnnumbered most_samples (first_value (found_of matches.now)) Kind.Gen) }
{
    let seed = number_of(matches, "seed", 0, MOST_SEED);
    let samples = number_of(matches, "samples", 1, most_samples);
    match (seed, samples) {
        (Some(seed), Some(samples)) => Ok(Command::Gen { seed, samples }),
        _ => Err(WordsFault::Usage),
    }
}

/// `show UNIT NAMES`, with `--netlist` or without it
fn show<'a>(matches: &ArgMatches<'a>) -> Command<'a>
    requires { HasRequired (rules_of Kind.Show) (first_value (found_of matches.now)) }
    ensures { (most : ℕ) → IsRead most (first_value (found_of matches.now)) Kind.Show result }
{
    let unit = word(matches, "unit");
    let names = word(matches, "names");
    if is_set(matches, "netlist") {
        return Command::ShowNetlist {
            unit,
            netlist: names,
        };
    }
    Command::Show { unit, names }
}

/// `prove UNIT NETLIST` with its options
fn prove<'a>(matches: &ArgMatches<'a>) -> Result<Command<'a>, WordsFault>
    requires { HasRequired (rules_of Kind.Prove) (first_value (found_of matches.now)) }
    ensures command { IfOk result (λ command. (most : ℕ) → IsRead most (first_value (found_of matches.now)) Kind.Prove command) }
    ensures usage { IfErr result (λ _. (most : ℕ) → AreUnnumbered most (first_value (found_of matches.now)) Kind.Prove) }
{
    let Some(limits) = limits_of(matches) else {
        return Err(WordsFault::Usage);
    };
    let Some(evidence) = evidence_of(matches) else {
        return Err(WordsFault::Usage);
    };
    Ok(Command::Prove {
        unit: word(matches, "unit"),
        netlist: word(matches, "netlist"),
        limits,
        evidence,
    })
}

/// `check UNIT NETLIST NUMBER CERTIFICATE`
fn check<'a>(matches: &ArgMatches<'a>) -> Result<Command<'a>, WordsFault>
    requires { HasRequired (rules_of Kind.Check) (first_value (found_of matches.now)) }
    ensures command { IfOk result (λ command. (most : ℕ) → IsRead most (first_value (found_of matches.now)) Kind.Check command) }
    ensures usage { IfErr result (λ _. (most : ℕ) → AreUnnumbered most (first_value (found_of matches.now)) Kind.Check) }
{
    let Some(number) = number_of(matches, "number", 1, MOST_NUMBER) else {
        return Err(WordsFault::Usage);
    };
    Ok(Command::Check {
        unit: word(matches, "unit"),
        netlist: word(matches, "netlist"),
        number,
        certificate: word(matches, "certificate"),
    })
}

/// How unknown bits are to be read, as the option of `wave` says.
fn unknown_of(matches: &ArgMatches) -> Option<Unknown>
    ensures some { IfSome result (IsUnknown (first_value (found_of matches.now) (codes "unknown"))) }
    ensures none { IsNone result → (unknown : Unknown) → IsUnknown (first_value (found_of matches.now) (codes "unknown")) unknown → ⊥ }
{
    unknown_named(matches.get_str("unknown")?)
}

/// `replay UNIT NETLIST RECORDING`
fn replay<'a>(matches: &ArgMatches<'a>) -> Command<'a>
    requires { HasRequired (rules_of Kind.Replay) (first_value (found_of matches.now)) }
    ensures { (most : ℕ) → IsRead most (first_value (found_of matches.now)) Kind.Replay result }
{
    Command::Replay {
        unit: word(matches, "unit"),
        netlist: word(matches, "netlist"),
        recording: word(matches, "recording"),
    }
}

/// The files of evidence that the options of `prove` say.
fn evidence_of<'a>(matches: &ArgMatches<'a>) -> Option<Evidence<'a>>
    ensures some { IfSome result (λ evidence. IsEvidence (first_value (found_of matches.now)) (evidence_of evidence)) }
    ensures none { IsNone result → (evidence : Wanted) → IsEvidence (first_value (found_of matches.now)) evidence → ⊥ }
{
    let loops = number_of(matches, "loops", 1, MOST_LOOPS)?;
    Some(Evidence {
        cert: matches.get_str("cert"),
        vcd: matches.get_str("vcd"),
        loops,
        buses: is_set(matches, "buses"),
    })
}

/// The limits that the options of `prove` say.
fn limits_of(matches: &ArgMatches) -> Option<Limits>
    ensures some { IfSome result (AreLimits (first_value (found_of matches.now))) }
    ensures none { IsNone result → (limits : Limits) → AreLimits (first_value (found_of matches.now)) limits → ⊥ }
{
    let depth = number_of(matches, "depth", 1, MOST_DEPTH)?;
    let visits = number_of(matches, "visits", 0, MOST_VISITS)?;
    let steps = number_of(matches, "steps", 1, MOST_STEPS)?;
    Some(Limits {
        depth,
        visits,
        steps: u64::from(steps),
        reach: is_set(matches, "reach"),
        covers: is_set(matches, "covers"),
        progress: is_set(matches, "progress"),
    })
}
