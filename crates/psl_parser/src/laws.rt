ghost use Rattle.psl_parser.specs.Laws.{OneParsed, OneFault, NotBoth};

/// A law, which runs nothing: tokens have one tree of the grammar at most, or one first fault, and never both. So what
/// `parse` answers stands for the only tree, or is the only fault, but for want of memory.
pub fn one_answer()
    ensures one_tree { OneParsed }
    ensures one_fault { OneFault }
    ensures not_both { NotBoth }
{}
