//! What the rules are for: where no item breaks one, instructions are such that a weave of them means what it should
//! (`IsWeavable` of `fault_instructions`).
ghost use Rattle.fault_rules.specs.Prerequisites.{KeptIsWeavable};

/// Where no item of the instructions breaks a rule, and the program and the expressions of modes break none
/// of names and kinds, the woven program is the extension: the program and the instructions are such as
/// `fault_weave::woven_extends` takes.
pub fn kept_is_weavable()
    ensures { KeptIsWeavable }
{}
