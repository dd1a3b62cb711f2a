// What follows from the definitions alone.
ghost use Rattle.std.specs.Prelude.{ℕ, ◌+◌, ◌*◌, ◌≤◌, ◌↔◌, ◌≡◌, ℤ, List, ◌++◌, length, IsTrue};
ghost use Rattle.clauses.specs.Literals.{clause_words, clauses_within, is_within};
ghost use Rattle.clauses.specs.Models.{Assignment, IsModel, is_true};
ghost use Rattle.gates_theory.specs.declared.circuit.Circuit.{Circuit};
ghost use Rattle.gates_theory.specs.declared.circuit.Gate.{Gate};
ghost use Rattle.gates_theory.specs.Circuits.{gates_hold, gates_within, AreDistinct, AreSame, IsSound, IsPath};
ghost use Rattle.gates_theory.specs.Distinct.{distinct};
ghost use Rattle.gates_theory.specs.Relations.{circuit_of, variables_of, IsChain, IsClosed, Relation};
ghost use Rattle.gates_theory.specs.Sizes.{distinct_variables, distinct_words, unrolled_variables, unrolled_words};
ghost use Rattle.gates_theory.specs.Terms.{built, term_size, term_within, value, Term};
ghost use Rattle.gates_theory.specs.Unrolled.{positions_of, unrolled};

/// A law: the models of an unrolled circuit are its paths, and each path is the first part of some model.
pub fn unrolling_law()
    ensures models { (circuit : Circuit) (positions : ℕ) (values : Assignment) → IsSound circuit
        → IsModel values (unrolled circuit positions) ↔ IsPath circuit positions (positions_of circuit values) }
    ensures paths { (circuit : Circuit) (positions : ℕ) (path : ℕ → Assignment) → IsSound circuit
        → IsPath circuit positions path → (values : Assignment) × IsModel values (unrolled circuit positions)
        × ((position : ℕ) → AreSame (length circuit.gates) (positions_of circuit values position) (path position)) }
{}

/// A law: with the clauses that the states at the first so many positions are different, the models of a formula are
/// those that have different states there. Some values of the further variables make a model of each of them.
pub fn distinct_law()
    ensures models { (circuit : Circuit) (clauses : List (List ℤ)) (variables positions : ℕ) (values : Assignment)
        → IsSound circuit → IsModel values (clauses ++ distinct circuit variables positions)
        → IsModel values clauses × AreDistinct circuit positions (positions_of circuit values) }
    ensures extends { (circuit : Circuit) (clauses : List (List ℤ)) (variables positions : ℕ) (values : Assignment)
        → IsSound circuit → positions * length circuit.gates ≤ variables → IsTrue (clauses_within variables clauses)
        → IsModel values clauses → AreDistinct circuit positions (positions_of circuit values)
        → (further : Assignment) × IsModel further (clauses ++ distinct circuit variables positions)
        × AreSame variables further values }
{}

/// A law: the words and the variables of an unrolled circuit, and of the clauses that states are different.
pub fn size_law()
    ensures unrolled { (circuit : Circuit) (positions : ℕ) → IsSound circuit
        → (clause_words (unrolled circuit positions) ≡ unrolled_words circuit positions)
        × IsTrue (clauses_within (unrolled_variables circuit positions) (unrolled circuit positions)) }
    ensures distinct { (circuit : Circuit) (variables positions : ℕ) → IsSound circuit
        → positions * length circuit.gates ≤ variables
        → (clause_words (distinct circuit variables positions) ≡ distinct_words circuit positions)
        × IsTrue (clauses_within (distinct_variables circuit variables positions)
        (distinct circuit variables positions)) }
{}

/// A law: where the gates of a term are as they should be, their literal has the term's value; and they are as many as
/// the term takes, and name earlier gates.
pub fn term_law()
    ensures value { (values : Assignment) (variables : ℕ) (gates : List Gate) (term : Term)
        → IsTrue (term_within variables term) → variables ≤ length gates
        → IsTrue (gates_hold values 0 (built gates term).gates)
        → is_true values (built gates term).output ≡ value values term }
    ensures size { (variables : ℕ) (gates : List Gate) (term : Term)
        → IsTrue (term_within variables term) → variables ≤ length gates
        → length (built gates term).gates ≡ length gates + term_size term }
    ensures within { (variables : ℕ) (gates : List Gate) (term : Term)
        → IsTrue (term_within variables term) → variables ≤ length gates → IsTrue (gates_within 0 gates)
        → IsTrue (gates_within 0 (built gates term).gates)
        × IsTrue (is_within (length (built gates term).gates) (built gates term).output) }
{}

/// A law: the circuit of a relation is sound, the models of its unrolled circuit have chains of the relation, and each
/// chain is the first part of some model.
pub fn relation_law()
    ensures sound { (relation : Relation) → IsClosed relation → IsSound (circuit_of relation) }
    ensures chains { (relation : Relation) (positions : ℕ) (values : Assignment) → IsClosed relation
        → IsModel values (unrolled (circuit_of relation) positions)
        → IsChain relation positions (positions_of (circuit_of relation) values) }
    ensures models { (relation : Relation) (positions : ℕ) (chain : ℕ → Assignment) → IsClosed relation
        → IsChain relation positions chain
        → (values : Assignment) × IsModel values (unrolled (circuit_of relation) positions)
        × ((position : ℕ) → AreSame (variables_of relation) (positions_of (circuit_of relation) values position)
        (chain position)) }
{}
