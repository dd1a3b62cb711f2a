// What follows from the definitions alone.
ghost use Rattle.std.specs.Prelude.{◌≡◌, ℕ, ℤ, neg_ℤ, List, map, Option};
ghost use Rattle.clauses.specs.Passing.{Passes, AddsPropagation};
ghost use Rattle.cdcl_trail.specs.Literals.{opposite, signed};
ghost use Rattle.cdcl_trail.specs.Renaming.{Renames, IsOnce};

/// Laws of the definitions: what holds of clauses whose literals are numbers holds of the same clauses with signed
/// literals. A lemma that passes does so, one that adds a propagation does so, and a list in which nothing stands
/// twice stays one.
pub fn signed_law()
    ensures passes { (live : ℕ → Option (List ℕ)) (live' : ℕ → Option (List ℤ)) (set hints : List ℕ)
        → Renames signed live live' → Passes opposite live set hints → Passes neg_ℤ live' (map signed set) hints }
    ensures adds { (live : ℕ → Option (List ℕ)) (live' : ℕ → Option (List ℤ)) (lemma : List ℕ)
        → Renames signed live live' → AddsPropagation opposite live lemma → AddsPropagation neg_ℤ live' (map signed lemma) }
    ensures once { (literals : List ℕ) → IsOnce literals → IsOnce (map signed literals) }
{}
