ghost use Rattle.std.specs.Prelude.{◌≡◌};
ghost use Rattle.gates_frames.specs.Frames as frames;
ghost use Rattle.gates_builder.specs.Adding.{AreOf, IsOf};

use gates_builder::Builder;

/// The literal at a number; past the end, the one that is false.
pub fn literal_at(builder: &Builder, literals: &[i32], number: u32) -> i32
    requires { AreOf builder.now literals.now }
    ensures is { result ≡ frames.literal_at builder.now.given literals.now number }
    ensures of { IsOf builder.now result }
{
    match literals.get(number as usize) {
        Some(literal) => *literal,
        None => builder.no(),
    }
}
