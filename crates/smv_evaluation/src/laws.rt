//! The laws of where moments stop and of the models of programs, which the layer above cites.
ghost use Rattle.smv_evaluation.specs.Laws.{OneStop, ReachingDoesNotStop, FlatModelsAreEvaluable};

/// Moments stop being a trace that reaches an event at most once and for one reason, and they do not where
/// they are one.
pub fn one_stop()
    ensures one { OneStop }
    ensures none { ReachingDoesNotStop }
{}

/// A program's flat model may be evaluated: its formulas name its own variables, symbols and earlier
/// definitions, and its symbols differ.
pub fn flat_models_are_evaluable()
    ensures { FlatModelsAreEvaluable }
{}
