ghost use Rattle.psl_tree.specs.Rows.{PlainRows, ClockedRows, SequenceRows};

/// Worked examples of the definitions, as a law: what each view of a short word says of a formula.
#[tactic(auto, using(crate::proofs::RowsHold::plain_rows, crate::proofs::RowsHold::clocked_rows, crate::proofs::RowsHold::sequence_rows))]
pub fn worked_examples()
    ensures plain { PlainRows }
    ensures clocked { ClockedRows }
    ensures sequences { SequenceRows }
{}
