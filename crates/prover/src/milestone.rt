// What a search has found out on its way, and in which words it is told.
ghost use Rattle.std.specs.Prelude.{◌≡◌, ◌++◌, ℕ, List, OnOk};
ghost use Rattle.prover.specs.declared.milestone.Milestone.{Milestone};
ghost use Rattle.psl_tree.specs.declared.directive.Directive.{Directive};

use psl_base::NoMemory;
use psl_tree::Directive;
use reach::FrameCount;

/// What a search has found out on its way.
#[derive(Clone, Copy, Debug)]
pub enum Milestone {
    /// No run of at most so many valuations violates what is owed.
    NoneWithin(u32),
    /// A joint path is open at the window, the first number, for each number of visits up to the second one.
    Open(u32, u32),
    /// So many frames of the joint states that count so many visits keep the bad states out.
    Frames(u32, FrameCount),
}

/// In which words milestones of directives are told.
pub trait Wording {
    /// The line of a milestone of a directive, with its end. It may be empty: then nothing is told.
    ghost line: { Self → Directive → Milestone → List ℕ };

    /// Adds that line at the end of a text.
    ///
    /// # Errors
    ///
    /// `NoMemory` if memory is refused.
    fn add_line(
        &self,
        text: &mut Vec<u8>,
        directive: &Directive,
        milestone: Milestone,
    ) -> Result<(), NoMemory>
        ensures { OnOk result (text.new.items ≡ text.old.items ++ line self.now directive.now milestone) };
}
