ghost use Rattle.psl_layer_theory.specs.Examples.{NextInSere, SequenceInBoolean, NoSuchName, TwoSuchNames, DoesNotSeeItself, DeclaredTwice, TooWide, RangeFalls, Indices, Buses, DefaultClock, NamedSequence, Comparison};
ghost use Rattle.psl_layer_theory.specs.Rows.{PrefixRows, InfixRows, RepetitionRows, StrengthRows, QuantifierRows, EdgeRows, DirectiveRows, DeclarationRows};
ghost use Rattle.psl_layer_theory.specs.Laws.{OneFirstFlaw, FunctionIsFirst, FirstOfBoth, OneFault, OneUnit, NotBoth};

/// What a tree is resolved to, as laws: the first of some faults is one, and a
/// function gives it; a tree has one list of
/// directives at most, or one fault but for want of memory, and never both.
#[tactic(auto, using(crate::proofs::Resolved::first_of_both, crate::proofs::Firsts::one_first, crate::proofs::Firsts::first_of_is_first, crate::proofs::Resolved::one_fault))]
pub fn one_answer()
    ensures one_first_flaw { OneFirstFlaw }
    ensures function { FunctionIsFirst }
    ensures both { FirstOfBoth }
    ensures one_fault { OneFault }
    ensures one_unit { OneUnit }
    ensures not_both { NotBoth }
{}

/// Worked examples of the definitions, as laws: short texts, each with its first fault or with its kernel.
#[tactic(auto, using(crate::proofs::ExamplesHold::examples))]
pub fn worked_examples()
    ensures next_in_sere { NextInSere }
    ensures sequence_in_boolean { SequenceInBoolean }
    ensures no_such_name { NoSuchName }
    ensures two_such_names { TwoSuchNames }
    ensures does_not_see_itself { DoesNotSeeItself }
    ensures declared_twice { DeclaredTwice }
    ensures too_wide { TooWide }
    ensures range_falls { RangeFalls }
    ensures indices { Indices }
    ensures buses { Buses }
    ensures default_clock { DefaultClock }
    ensures named_sequence { NamedSequence }
    ensures comparison { Comparison }
{}

/// Each word and mark that the grammar has in the place of an operator, a directive or a declaration has a row of its
/// own, as laws.
pub fn rows()
    ensures prefix { PrefixRows }
    ensures infix { InfixRows }
    ensures repetition { RepetitionRows }
    ensures strength { StrengthRows }
    ensures quantifier { QuantifierRows }
    ensures edge { EdgeRows }
    ensures directive { DirectiveRows }
    ensures declaration { DeclarationRows }
{}
