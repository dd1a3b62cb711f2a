ghost use Rattle.std.specs.Prelude.{List};
ghost use Rattle.psl_tree.specs.declared.letter.Letter.{Letter};
ghost use Rattle.psl_tree.specs.declared.atom.Atom.{Atom};
ghost use Rattle.alternating_theory.specs.Obligations.{Automaton};
ghost use Rattle.alternating.specs.Stepped.{StartTells, BitsPack};

/// Laws of the values of all obligations: the start's is that of the automaton, and words whose bits
/// say atom by atom what holds on a letter pack it.
#[tactic(auto, using(crate::proofs::Stepping::start_tells, crate::proofs::Stepping::bits_pack))]
pub fn values_and_letters()
    ensures start { (automaton : Automaton) → StartTells automaton }
    ensures packed { (atoms : List Atom) → BitsPack atoms }
{}
