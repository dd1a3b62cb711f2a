ghost use Rattle.psl_parser.specs.LimitLaws.{StatementsGoOn, StatementsEnd, HeadsGoOn, HeadsEnd, UnitsEnd, OneFirst, NoneOrFirst};

/// Where the statements of a text stand, as laws, which run nothing: from its first token to the first `;` at level 0,
/// and not in the head of a verification unit.
#[tactic(auto, using(crate::proofs::Standing::statements_go_on, crate::proofs::Standing::statements_end, crate::proofs::Standing::heads_go_on, crate::proofs::Standing::heads_end, crate::proofs::Standing::units_end))]
pub fn statements()
    ensures go_on { StatementsGoOn }
    ensures end { StatementsEnd }
    ensures heads_go_on { HeadsGoOn }
    ensures heads_end { HeadsEnd }
    ensures units_end { UnitsEnd }
{}

/// A law, which runs nothing: a text has at most one first token that passes a limit, and it is named with one limit;
/// and where it has one, it is not so that no token passes a limit.
#[tactic(auto, using(crate::proofs::LimitsProved::one_first))]
pub fn one_limit()
    ensures one_first { OneFirst }
    ensures not_both { NoneOrFirst }
{}
