ghost use Rattle.psl_sugar.specs.Numbers.{ComparesNumbers};

/// A law of the definitions, which runs nothing: on a letter that is neither Top nor Bottom a comparison holds exactly
/// where the numbers of its two sides compare so.
pub fn comparisons()
    ensures { ComparesNumbers }
{}
