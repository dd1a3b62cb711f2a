ghost use Rattle.psl_grammar.specs.Examples.{ArrowsGoRight, NextBindsFirst, NextCounts, WithinBindsFirst, AssertIsStatement, FaultIsEarly};
ghost use Rattle.psl_grammar.specs.Laws.{OneTree, TreesAreSound, BegunByFronts, RestDoesNotMatter, ShorterBegins, OnePlace, TreeHasNoFault, TreeOrFault, ReadIsTree, StopIsFault, LimitComesFirst, ReadWithinLimit, FaultWithinLimit};

/// A token list has at most one tree, whatever the symbol, and each part of it is one that a production makes: laws of
/// the grammar alone.
#[tactic(auto, using(crate::proofs::Proved::one_tree, crate::proofs::Proved::trees_are_sound))]
pub fn one_tree()
    ensures one_tree { OneTree }
    ensures sound { TreesAreSound }
{}

/// What it means that tokens begin a symbol, as laws: they are the fronts of the lists that it derives.
#[tactic(auto, using(crate::proofs::Proved::begun_by_fronts, crate::proofs::Proved::rest_does_not_matter, crate::proofs::Proved::shorter_begins))]
pub fn beginnings()
    ensures fronts { BegunByFronts }
    ensures rest { RestDoesNotMatter }
    ensures shorter { ShorterBegins }
{}

/// The place of a syntax fault, as laws: there is at most one, none where the tokens have a tree, and one where they
/// have none.
#[tactic(auto, using(crate::proofs::Proved::one_place, crate::proofs::Proved::tree_has_no_fault))]
pub fn first_syntax_fault()
    ensures one_place { OnePlace }
    ensures tree_has_none { TreeHasNoFault }
    ensures tree_or_fault { TreeOrFault }
{}

/// What a reader that looks one token ahead finds, as laws: the tree, the place of the syntax fault, or the first token
/// that passes a limit where that comes first.
#[tactic(auto, using(crate::proofs::Proved::read_is_tree, crate::proofs::Proved::stop_is_fault, crate::proofs::Proved::limit_comes_first))]
pub fn reading()
    ensures tree { ReadIsTree }
    ensures fault { StopIsFault }
    ensures limit { LimitComesFirst }
    ensures read_within_limit { ReadWithinLimit }
    ensures fault_within_limit { FaultWithinLimit }
{}

/// Worked examples of the grammar, as laws: token lists with their trees, and one with the place of its syntax fault.
#[tactic(auto, using(crate::proofs::ExamplesHold::examples))]
pub fn worked_examples()
    ensures arrows { ArrowsGoRight }
    ensures next { NextBindsFirst }
    ensures counted { NextCounts }
    ensures within { WithinBindsFirst }
    ensures statement { AssertIsStatement }
    ensures fault { FaultIsEarly }
{}
