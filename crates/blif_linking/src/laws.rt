// Worked examples of the definitions. No code runs.
ghost use Rattle.blif_linking.specs.Examples.{TurningIsLinked, TurningIsNamed, TurningIsFlat, ActualsAreNames};
ghost use Rattle.blif_linking.specs.Examples.{NoSuchModel, NoModelNamed, NoEquals, NoFormal, FormalTwice, InputMissing};
ghost use Rattle.blif_linking.specs.Examples.{DrivenByBoth, InputsDriveNothing, ActualUndriven, OutputUndriven};

/// Worked examples of the definitions, as laws: a hierarchy of two models by numbers and as one netlist, names of actuals,
/// and texts for each way in which models do not fit together.
#[tactic(auto, using(crate::proofs::ExamplesHold::links))]
pub fn worked_links()
    ensures turning_is_linked { TurningIsLinked }
    ensures turning_is_named { TurningIsNamed }
    ensures turning_is_flat { TurningIsFlat }
    ensures actuals_are_names { ActualsAreNames }
    ensures no_such_model { NoSuchModel }
    ensures no_model_named { NoModelNamed }
    ensures no_equals { NoEquals }
    ensures no_formal { NoFormal }
    ensures formal_twice { FormalTwice }
    ensures input_missing { InputMissing }
    ensures driven_by_both { DrivenByBoth }
    ensures inputs_drive_nothing { InputsDriveNothing }
    ensures actual_undriven { ActualUndriven }
    ensures output_undriven { OutputUndriven }
{}
