// What follows from the definitions alone.
ghost use Rattle.std.specs.Prelude.{◌≡◌, ℕ, ◌≤◌, ℤ, Bool, ◌&&◌, ◌||◌, [], ◌∷◌, List, length, map, suc, true, All, IsTrue};
ghost use Rattle.std.specs.List.{list_all};
ghost use Rattle.clauses.specs.Literals.{clause_within, clauses_within, is_within};
ghost use Rattle.clauses.specs.Models.{Assignment, IsModel, is_true};
ghost use Rattle.netlist.specs.declared.rows.Mark.{Mark};
ghost use Rattle.gates_nodes.specs.declared.cover.Cover.{Cover};
ghost use Rattle.gates_nodes.specs.declared.node.Node.{Node};
ghost use Rattle.gates_nodes.specs.Clauses.{evaluated, formula};
ghost use Rattle.gates_nodes.specs.Folding.{conjoined, conjoined_all};
ghost use Rattle.gates_nodes.specs.Makes.{AreSound, Makes};
ghost use Rattle.gates_nodes.specs.Nodes.{any, cover_at, fits_some, told, variables_of, IsEvaluation, IsExact, Source};
ghost use Rattle.gates_nodes.specs.Tables.{some_row, tabled};

/// A law: the literal that is made has in each evaluation the value of the conjunction of two literals or of some, or
/// what a table says of its inputs; and all nodes name earlier literals.
pub fn value_law()
    ensures conjunction { (covers : List Cover) (given : ℕ) (nodes : List Node) (first second : ℤ) → AreSound given nodes
        → IsTrue (is_within (variables_of given nodes) first) → IsTrue (is_within (variables_of given nodes) second)
        → Makes covers given nodes (conjoined given nodes first second)
        (λ values. is_true values first && is_true values second) }
    ensures all { (covers : List Cover) (given : ℕ) (nodes : List Node) (literals : List ℤ) → AreSound given nodes
        → IsTrue (clause_within (variables_of given nodes) literals)
        → Makes covers given nodes (conjoined_all given nodes literals) (λ values. list_all (is_true values) literals) }
    ensures table { (covers : List Cover) (given : ℕ) (nodes : List Node) (cover : ℕ) (a b c d : ℤ) → AreSound given nodes
        → IsExact (cover_at covers cover) → IsTrue (clause_within (variables_of given nodes) (a ∷ b ∷ c ∷ d ∷ []))
        → Makes covers given nodes (tabled covers given nodes cover a b c d)
        (λ values. fits_some (cover_at covers cover).on (map (is_true values) (a ∷ b ∷ c ∷ d ∷ []))) }
    ensures rows { (covers : List Cover) (given : ℕ) (nodes : List Node) (rows : List (List Mark)) (literals : List ℤ)
        → AreSound given nodes → IsTrue (clause_within (variables_of given nodes) literals)
        → Makes covers given nodes (some_row given nodes rows literals)
        (λ values. fits_some rows (map (is_true values) literals)) }
{}

/// A law: the models of clauses over nodes are the evaluations that meet them: of each model the values of the nodes can
/// be computed anew, each evaluation that meets the clauses is a model, and whatever the free nodes are told to be goes
/// on to an evaluation. The formula's literals are of the variables of the nodes.
pub fn model_law()
    ensures models { (covers : List Cover) (given : ℕ) (nodes : List Node) (clauses : List (List ℤ)) (values : Assignment)
        → ((number : ℕ) → IsExact (cover_at covers number)) → AreSound given nodes
        → IsModel values (formula covers given nodes clauses)
        → IsEvaluation covers given any (evaluated covers any values (suc given) nodes) nodes
        × IsModel (evaluated covers any values (suc given) nodes) clauses }
    ensures evaluations { (covers : List Cover) (given : ℕ) (source : Source) (nodes : List Node)
        (clauses : List (List ℤ)) (values : Assignment)
        → ((number : ℕ) → IsExact (cover_at covers number)) → AreSound given nodes
        → IsEvaluation covers given source values nodes → IsModel values clauses
        → IsModel values (formula covers given nodes clauses) }
    ensures told { (covers : List Cover) (given : ℕ) (nodes : List Node) (bits : ℕ → ℕ → Bool) (values : Assignment)
        → AreSound given nodes → values (suc given) ≡ true
        → IsEvaluation covers given (told bits) (evaluated covers (told bits) values (suc given) nodes) nodes }
    ensures within { (covers : List Cover) (given : ℕ) (nodes : List Node) (clauses : List (List ℤ)) → AreSound given nodes
        → IsTrue (clauses_within (variables_of given nodes) clauses)
        → IsTrue (clauses_within (variables_of given nodes) (formula covers given nodes clauses)) }
    ensures given { (covers : List Cover) (given : ℕ) (source : Source) (nodes : List Node) (values : Assignment)
        (variable : ℕ) → variable ≤ suc given
        → evaluated covers source values (suc given) nodes variable ≡ values variable }
{}
