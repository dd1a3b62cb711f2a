//! Writes recordings (value change dumps, IEEE 1364, clause 18) of signals of one bit, and says how they are read. Makes
//! recordings to try a judge on: of a request, and of an answer that follows each request one sample later. The requests
//! come from a linear congruential generator, so the same seed gives the same recording.
#![tactic(auto)]

ghost use Rattle.std.specs.Prelude.{◌≡◌, ◌≤◌, ℕ, length, Ok};
ghost use Rattle.psl_base.specs.Places.{file_limit};
ghost use Rattle.vcd_writer.specs.Made.{made_text, made_sampled};
ghost use Rattle.vcd_reader.specs.Meaning.{reading};
ghost use Rattle.vcd_reader.specs.Rules.{sample_limit};
ghost use Rattle.vcd_reader.specs.declared.unknown.Unknown.{Unknown};

mod lines;
mod making;

pub use lines::add_time;
pub use making::make_recording;

/// A law of the definitions, which runs nothing: up to the limit on samples, a made recording is read without a
/// fault, however unknown bits read, and says just the values that it was made of.

pub fn accepted()
    ensures { (unknown : Unknown) (seed samples : ℕ) → samples ≤ sample_limit → reading unknown (made_text seed samples) ≡ Ok (made_sampled unknown seed samples) }
{}

/// A law of the definitions: up to the limit on samples, a made recording is no longer than a file may be.
#[tactic(auto, using(crate::proofs::Lengths::made_short))]
pub fn short_law()
    ensures { (seed samples : ℕ) → samples ≤ sample_limit → length (made_text seed samples) ≤ file_limit }
{}
