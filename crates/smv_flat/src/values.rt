//! Values and the actuals of instances, judged for what may be wrong with them wherever they stand: a name
//! without a value, a circle, `next`, an input. [`judge_value`] and [`judge_actuals`] are the main functions.
ghost use Rattle.std.specs.Prelude.{◌≡◌, ◌∷◌, ◌++◌, [], List, Bool, map, is_some, IfOk};
ghost use Rattle.std.specs.Prelude.{Some, slice_get};
ghost use Rattle.smv_language.specs.ProgramTree.{Path};
ghost use Rattle.smv_language.specs.Scope.{plain_name};
ghost use Rattle.smv_language.specs.ExpressionTree.{tree_of};
ghost use Rattle.smv_language.specs.Flat.{FlatInstance};
ghost use Rattle.smv_flat_laws.specs.Items.{instances_of};
ghost use Rattle.smv_scope.specs.SceneTree.{program_of};
ghost use Rattle.smv_flat.specs.ScopeOf.{IsAnyScope};
ghost use Rattle.smv_flat.specs.ValueJudgement.{IsJudged};
ghost use Rattle.smv_scope.specs.Links.{is_marked as is_marked_in};
ghost use Rattle.smv_flat.specs.Verdicts.{is_without_value, is_input_found, is_circle_found, with_flags, AreJudged, is_nothing_known};
ghost use Rattle.smv_flat.specs.Verdicts.{is_circle_known, is_circle_meant, JudgesActual, JudgesActuals, joined_actual};

use crate::flattening::Scope;
use base_values::{Dotted, OutOfMemory};
use smv_language::Expr;
use smv_language::model::Role;
use smv_scope::names::Formal;
use smv_scope::needs::Needs;
use smv_scope::uses::{Use, Uses};
use smv_scope::walk::Meaning;
use std::alloc::Global;

/// What may be wrong with a value, wherever it stands: a name that means nothing or an instance, `next`,
/// `next` under another, an input, and an input under `next`.
#[derive(Clone, Copy)]
pub(crate) struct JudgedValue {
    pub no_value: bool,
    pub next: bool,
    pub nested_next: bool,
    pub input: bool,
    pub next_input: bool,
}

/// What may be wrong with the actuals of a declaration: one means nothing, or has a name without a value;
/// one is on a circle; one has `next`.
#[derive(Clone, Copy)]
pub(crate) struct JudgedActual {
    pub no_value: bool,
    pub circle: bool,
    pub next: bool,
}

/// What is wrong with the actuals that an instance is handed.
pub(crate) fn judge_actuals(
    alloc: Global,
    scope: &Scope<'_>,
    spot: usize,
    inner: usize,
    actuals: &[Expr<Dotted>],
) -> Result<JudgedActual, OutOfMemory>
    requires scope { IsAnyScope scope.now }
    ensures { IfOk result (JudgesActuals (program_of scope.now.scene) spot inner (map tree_of actuals.now) (map tree_of actuals.now)) }
{
    let mut judged = JudgedActual {
        no_value: false,
        circle: false,
        next: false,
    };
    for (formal, actual) in actuals.iter().enumerate() {
        let one = judge_actual(alloc, scope, spot, inner, formal, actual)?;
        judged = judged.joined(one);
    }
    Ok(judged)
}

/// What is wrong with the actual of a formal. A plain name is judged by what is known of the formal, any
/// other one has a definition of its own.
fn judge_actual(
    alloc: Global,
    scope: &Scope<'_>,
    spot: usize,
    inner: usize,
    formal: usize,
    actual: &Expr<Dotted>,
) -> Result<JudgedActual, OutOfMemory>
    requires scope { IsAnyScope scope.now }
    ensures { IfOk result (JudgesActual (program_of scope.now.scene) spot inner formal (tree_of actual.now)) }
{
    let known = scope.scene.formal(inner, formal);
    if is_plain(actual) {
        return Ok(JudgedActual {
            no_value: is_nothing(known),
            circle: is_circle(known),
            next: false,
        });
    }
    let judged = judge_value(alloc, scope, spot, actual)?;
    Ok(JudgedActual {
        no_value: judged.no_value,
        circle: is_on_formal_circle(&scope.needs, known),
        next: judged.next,
    })
}

impl JudgedActual {
    /// What is wrong with one or with the other.
    fn joined(self, other: JudgedActual) -> JudgedActual
        ensures { result ≡ joined_actual self other }
    {
        JudgedActual {
            no_value: self.no_value || other.no_value,
            circle: self.circle || other.circle,
            next: self.next || other.next,
        }
    }
}

/// Whether an actual is a name alone, so that it has no definition of its own.
fn is_plain(value: &Expr<Dotted>) -> bool
    ensures { result ≡ is_some (plain_name (tree_of value.now)) }
{
    match value {
        Expr::Leaf(_) => true,
        _ => false,
    }
}

/// Whether a formal means nothing.
fn is_nothing(known: Formal) -> bool
    ensures { result ≡ is_nothing_known known }
{
    match known {
        Formal::Means(Meaning::Nothing) => true,
        _ => false,
    }
}

/// Whether a formal comes back to itself.
fn is_circle(known: Formal) -> bool
    ensures { result ≡ is_circle_known known }
{
    match known {
        Formal::Circle => true,
        _ => false,
    }
}

/// What is wrong with a value at an instance.
pub(crate) fn judge_value(
    alloc: Global,
    scope: &Scope<'_>,
    spot: usize,
    value: &Expr<Dotted>,
) -> Result<JudgedValue, OutOfMemory>
    requires scope { IsAnyScope scope.now }
    ensures judged { (at : FlatInstance) → slice_get (instances_of (program_of scope.now.scene)) spot ≡ Some at →
        IfOk result (IsJudged (program_of scope.now.scene) at.place (tree_of value.now)) }
{
    let uses = Uses::of_value(alloc, value)?;
    Ok(judge_names(
        scope,
        spot,
        uses.names.as_slice(),
        uses.has_next,
        uses.nested_next,
    ))
}

/// What is wrong with a value that has these names, and that has `next`, also under another, or not.
fn judge_names(
    scope: &Scope<'_>,
    spot: usize,
    names: &[Use<'_>],
    next: bool,
    nested_next: bool,
) -> JudgedValue
    requires scope { IsAnyScope scope.now }
    ensures { AreJudged (program_of scope.now.scene) spot names.now next nested_next result }
{
    let mut judged = JudgedValue {
        no_value: false,
        next,
        nested_next,
        input: false,
        next_input: false,
    };
    for each in names {
        judged = judged.with_name(scope, spot, each);
    }
    judged
}

impl JudgedValue {
    /// The value judged by one name more.
    fn with_name(self, scope: &Scope<'_>, spot: usize, each: &Use<'_>) -> JudgedValue
        requires scope { IsAnyScope scope.now }
        ensures { (us : List (Path × Bool)) (next nested : Bool) → AreJudged (program_of scope.now.scene) spot us next nested self →
            AreJudged (program_of scope.now.scene) spot (us ++ each.now ∷ []) next nested result }
    {
        let meaning = scope.scene.meaning(spot, each.name());
        self.with_flags(
            is_no_value(meaning),
            is_input(&scope.needs, meaning),
            each.is_next(),
        )
    }

    /// The value judged by a name that has no value or has one, and that gives an input or not, under `next` or not.
    fn with_flags(self, no_value: bool, input: bool, next: bool) -> JudgedValue
        ensures { result ≡ with_flags self no_value input next }
    {
        JudgedValue {
            no_value: self.no_value || no_value,
            next: self.next,
            nested_next: self.nested_next,
            input: self.input || input,
            next_input: self.next_input || input && next,
        }
    }
}

/// Whether a name with this meaning has no value. A name that meets a loop is not judged.
fn is_no_value(meaning: Meaning) -> bool
    ensures { result ≡ is_without_value meaning }
{
    match meaning {
        Meaning::Nothing | Meaning::Instance(_) => true,
        _ => false,
    }
}

/// Whether a meaning is a definition that is needed by itself.
pub(crate) fn is_on_meaning_circle(needs: &Needs, meaning: Meaning) -> bool
    ensures { result ≡ is_circle_found needs.now meaning }
{
    match meaning {
        Meaning::Definition(definition) => is_marked(needs.on_circle.as_slice(), definition),
        _ => false,
    }
}

/// Whether a formal means a definition that is needed by itself.
fn is_on_formal_circle(needs: &Needs, known: Formal) -> bool
    ensures { result ≡ is_circle_meant needs.now known }
{
    match known {
        Formal::Means(meaning) => is_on_meaning_circle(needs, meaning),
        _ => false,
    }
}

/// Whether a meaning is an input, or a definition that reads one.
fn is_input(needs: &Needs, meaning: Meaning) -> bool
    ensures { result ≡ is_input_found needs.now meaning }
{
    match meaning {
        Meaning::Variable {
            role: Role::Input,
            ..
        } => true,
        Meaning::Definition(definition) => is_marked(needs.reads_input.as_slice(), definition),
        _ => false,
    }
}

/// Whether the definition of a number is marked.
fn is_marked(marks: &[bool], definition: usize) -> bool
    ensures { result ≡ is_marked_in marks.now definition }
{
    match marks.get(definition) {
        Some(mark) => *mark,
        None => false,
    }
}
