//! Names, lists and formulas of which generated trees are made.
//!
//! [`output_of`] is what feeds a stage: the output of the last stage of its rail, or TRUE.
ghost use Rattle.std.specs.Prelude.{◌≡◌, [], ◌∷◌, codes, IfOk};
ghost use Rattle.smv_language.specs.Tree.{leaf};
ghost use Rattle.smv_language.specs.ExpressionTree.{tree_of};
ghost use Rattle.fault_generator.specs.Generator.{stage_name as stage_name_of, output_of as output_tree};

use base_values::{Dotted, Items, Name, OutOfMemory};
use smv_language::Expr;
use std::alloc::Global;

/// The list of one item.
pub(crate) fn one<T: Drop>(alloc: Global, item: T) -> Result<Items<T>, OutOfMemory>
    ensures { IfOk result (λ list. list ≡ item ∷ []) }
{
    let mut items = Items::new(alloc);
    items.push(item)?;
    Ok(items)
}

/// The single name as a formula.
pub(crate) fn named(alloc: Global, text: &[u8]) -> Result<Expr<Dotted>, OutOfMemory>
    ensures { IfOk result (λ made. tree_of made ≡ leaf (text.now ∷ [])) }
{
    let path = single(alloc, text)?;
    Ok(Expr::Leaf(path))
}

/// The single name as a dotted one.
pub(crate) fn single(alloc: Global, text: &[u8]) -> Result<Dotted, OutOfMemory>
    ensures { IfOk result (λ path. path ≡ text.now ∷ []) }
{
    let name = Name::new(alloc, text)?;
    Dotted::new(alloc, name)
}

/// The name of the stage.
pub(crate) fn stage_name(alloc: Global, stage: u32) -> Result<Name, OutOfMemory>
    ensures { IfOk result (λ name. name ≡ stage_name_of stage) }
{
    let text = format!(in alloc; "r{stage}")?;
    Name::new(alloc, text.as_bytes())
}

/// The output of the last stage of a rail, or TRUE where the rail is empty.
pub(crate) fn output_of(alloc: Global, last: Option<u32>) -> Result<Expr<Dotted>, OutOfMemory>
    ensures { IfOk result (λ made. tree_of made ≡ output_tree last) }
{
    match last {
        Some(stage) => output(alloc, stage),
        None => Ok(Expr::Truth(true)),
    }
}

/// The output of a stage.
fn output(alloc: Global, stage: u32) -> Result<Expr<Dotted>, OutOfMemory>
    ensures { IfOk result (λ made. tree_of made ≡ leaf (stage_name_of stage ∷ codes "out" ∷ [])) }
{
    let relay = stage_name(alloc, stage)?;
    let out = Name::new(alloc, b"out")?;
    let mut path = Dotted::new(alloc, relay)?;
    path.push(out)?;
    Ok(Expr::Leaf(path))
}
