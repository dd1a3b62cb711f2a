// A machine: a system of states, and the questions that a search asks of it.
ghost use Rattle.std.specs.Prelude.{◌≡◌, ◌≤◌, List, Bool as Truth, false, length, IsTrue, IfOk, IfErr, IfSome, IfNone};
ghost use Rattle.clauses.specs.declared.flat.TheConstants.{MOST_VARIABLES};
ghost use Rattle.reach_frames.specs.Bits.{is_met, is_in_cube};
ghost use Rattle.reach_frames.specs.Cubes.{IsCube, IsFrame};
ghost use Rattle.reach_frames.specs.Entries.{IsEntered};
ghost use Rattle.reach_frames.specs.Systems.{System};
ghost use Rattle.reach_frames.specs.declared.stop.Stop.{Stop};

use crate::{Entered, Entry, Stop};
use clauses::Clauses;
use psl_base::{Bits, NoMemory};
use std::alloc::Global;

/// A system of states, and the questions that a search asks of it.
///
/// A question that a machine cannot decide ends the search: what is known then is the machine's to promise.
pub trait Machine {
    /// Its states.
    ghost system: { Self → System };

    /// What a stop of this machine promises.
    ghost stops: { Self → Stop → Type 0 };

    /// How many bits a state has.
    fn width(&self) -> u32
        ensures is { result ≡ (system self.now).width }
        ensures few { result ≤ MOST_VARIABLES };

    /// The literal of the states that are to be kept out.
    fn goal(&self) -> i32
        ensures { result ≡ (system self.now).goal };

    /// A state of a cube in which a run may begin, if there is one.
    ///
    /// # Errors
    ///
    /// Why that was not decided.
    fn begins(&self, alloc: Global, cube: &[i32]) -> Result<Option<Bits>, Stop>
        requires { IsCube (system self.now).width cube.now }
        ensures some { IfOk result (λ found. IfSome found (λ state.
            (system self.now).begins state × IsTrue (is_in_cube cube.now state))) }
        ensures none { IfOk result (λ found. IfNone found ((state : List Truth)
            → (system self.now).begins state → is_in_cube cube.now state ≡ false)) }
        ensures stopped { IfErr result (stops self.now) };

    /// Whether a state that meets a frame, is outside the cube, and begins where that is asked, leads into the cube.
    ///
    /// # Errors
    ///
    /// Why that was not decided.
    fn entry(
        &self,
        alloc: Global,
        frame: &Clauses,
        initial: bool,
        cube: &[i32],
    ) -> Result<Entered, Stop>
        requires frame { IsFrame (system self.now).width frame.now }
        requires cube { IsCube (system self.now).width cube.now }
        requires begun { (state : List Truth) → (system self.now).begins state → IsTrue (is_met frame.now state) }
        ensures answer { IfOk result (IsEntered (system self.now) frame.now initial cube.now) }
        ensures stopped { IfErr result (stops self.now) };

    /// A mask of bits of the first state of an entry that are enough to lead into the cube. It is a hint, and nothing is
    /// promised of it.
    fn lifted(&self, alloc: Global, entry: &Entry, cube: &[i32]) -> Result<Bits, NoMemory>
        requires cube { IsCube (system self.now).width cube.now }
        requires follows { (system self.now).follows entry.now.before entry.now.after };

    /// A mask of bits of a bolder part of a cube, to be tried first. It is a hint, and nothing is promised of it.
    fn thinned(&self, alloc: Global, cube: &[i32]) -> Result<Bits, NoMemory>
        requires { IsCube (system self.now).width cube.now };

    /// Whether literals are left out of cubes one after the other, beyond what a refutation tells. It is a hint, and
    /// nothing is promised of it.
    fn leaves_out(&self) -> bool;

    /// Whether it is plain that no run begins in a cube. It is a hint, and nothing is promised of it.
    fn is_away(&self, cube: &[i32]) -> bool;

    /// A state of the cube that follows a state, if the machine finds one. Nothing is said where it does not.
    fn led_on(&self, alloc: Global, state: &Bits, cube: &[i32]) -> Result<Option<Bits>, NoMemory>
        requires cube { IsCube (system self.now).width cube.now }
        requires size { length state.now ≡ (system self.now).width }
        ensures { IfOk result (λ found. IfSome found (λ next.
            (system self.now).follows state.now next × IsTrue (is_in_cube cube.now next))) };

    /// Memory may be refused at any time.
    ghost refused: { (machine : Self) → stops machine Stop.NoMemory };
}
