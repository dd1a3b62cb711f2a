// What holds of values by their types, said where a proof needs it.
ghost use Rattle.std.specs.Prelude.{◌≤◌, length};
ghost use Rattle.clauses.specs.Literals.{clause_words};
ghost use Rattle.clauses.specs.declared.flat.TheConstants.{MOST_WORDS};
ghost use Rattle.psl_tree.specs.declared.counts.TheConstants.{MOST_OBLIGATIONS};
ghost use Rattle.run_terms.specs.Automata.{IsSound};

use alternating::Alternating;
use clauses::Cnf;

/// A formula has no more words than there may be.
pub(crate) fn formula_is_few(cnf: &Cnf)
    ensures { clause_words cnf.now.clauses ≤ MOST_WORDS }
{
    let _words = cnf.clauses.words();
}

/// The start of an automaton is one of its obligations, and so is all that they owe.
pub(crate) fn automaton_law(automaton: &Alternating)
    ensures { IsSound automaton.now }
{
    let _start = automaton.start();
    for number in 0..automaton.len() {
        let _asked = automaton.delta(number);
    }
}

/// An automaton has no more obligations than there may be.
pub(crate) fn obligations_are_few(automaton: &Alternating)
    ensures { length automaton.now.obligations ≤ MOST_OBLIGATIONS }
{
    let _start = automaton.start();
}
