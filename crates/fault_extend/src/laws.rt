//! What the rules on guards and on what is followed are for, and that a weave tells one fault at most.
ghost use Rattle.fault_extend.specs.InstanceLaws.{InstancesAreListed};
ghost use Rattle.fault_extend.specs.JudgedLaws.{GoodIsJudged, GoodModesAreJudged, InstancesAreLawful, TypesAreUniform};
ghost use Rattle.fault_extend.specs.ToldLaws.{OneTold, KeptTellNone};

/// A mode whose expressions break no rule at an instance of a program that breaks none is such as the weave
/// takes: what is followed means something, and the guard has exactly one truth value.
pub fn good_modes_are_judged()
    ensures { GoodModesAreJudged }
{}

/// In a program that breaks no rule, the members of a variable's type are all numbers or all symbols.
pub fn types_are_uniform()
    ensures { TypesAreUniform }
{}

/// In a program that breaks no rule of names, and whose actuals mean something, each instance is such as the
/// weave takes.
pub fn instances_are_lawful()
    ensures { InstancesAreLawful }
{}

/// Where a flat model has the instances that flattening gives, they are the program's in depth-first order.
pub fn instances_are_listed()
    ensures { InstancesAreListed }
{}

/// Instructions whose modes break no rule at any instance of a lawful program are judged.
pub fn good_is_judged()
    ensures { GoodIsJudged }
{}

/// Of instructions for a program that breaks no rule at most one fault is told, want of memory apart, and none
/// where all rules are kept.
pub fn one_told()
    ensures one { OneTold }
    ensures none { KeptTellNone }
{}
