//! What the rules on guards and on what is followed mean: where they are judged, which are broken, and the
//! first that instructions break.
//!
//! A mode is judged at each instance of its slice's module (`specs/Uses.antt`), as a DEFINE of that module
//! would be: first by the rules of names and then, in its flat form, by those of kinds
//! (`specs/Expressions.antt`). At most one rule is the first that instructions break (`specs/Laws.antt`). The code
//! that judges stands in the layer above.
//!
//! ```text
//! // SLICE Lamp AFFECTS on WITH MODE dark : Permanent StuckAt(FALSE) WHEN 3;
//! // at the instance main and the item 3, the guard breaks the second rule of kinds
//! ```
#![tactic(auto)]

ghost use Rattle.fault_extend_laws.specs.Laws.{OneUse, KeptHaveNone};

/// Instructions have at most one first broken rule on the expressions of their modes, with one item, and none
/// where all modes keep the rules.
pub fn one_use()
    ensures one { OneUse }
    ensures none { KeptHaveNone }
{}
