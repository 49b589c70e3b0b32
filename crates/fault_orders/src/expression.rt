//! The expression that a trace of a staged model makes TRUE where it speaks against a claim.
//!
//! The main function is [`against`]. The claim itself is spoken of by the two booleans that `staging` adds.
ghost use Rattle.std.specs.Prelude.{◌≡◌, ◌<◌, ◌≤◌, ◌+◌, ◌^◌, length, IfOk, if◌then◌else◌};
ghost use Rattle.smv_language.specs.Tree.{not_of};
ghost use Rattle.smv_language.specs.ModelTree.{flat_tree, model_tree};
ghost use Rattle.sat_encoding_laws.specs.FlatTraces.{IsNumbered};
ghost use Rattle.fault_orders.specs.Stage.{against as against_tree, with_set as set_tree, with_claim as claim_tree, now_of};

use crate::Relation;
use crate::staging::now;
use base_values::OutOfMemory;
use cut_sets::has_number;
use fault_staging::build::{binary, opposite};
use smv_language::copy_model::copy_flat;
use smv_language::model::{Flat, FlatModel};
use smv_language::{Expr, Op};
use smv_scope::items::number_of;
use std::alloc::Global;

/// The top event, with exactly this set of so many faults, against the claim. Where none is claimed it is the top event with
/// exactly the set. The expression is over the staged model of these faults.
pub fn against(
    alloc: Global,
    staged: &FlatModel,
    faults: u32,
    top: &Expr<Flat>,
    set: &[u32],
    claim: Option<Relation>,
) -> Result<Expr<Flat>, OutOfMemory>
    requires staged { faults + 2 ≤ length staged.now.variables }
    requires set { IsNumbered faults set.now }
    ensures { IfOk result (λ made. flat_tree made ≡ against_tree (model_tree staged.now) faults (flat_tree top.now) set.now claim) }
{
    let ahead = number_of(staged.variables.len() - 1)? - 1;
    let made = with_set(alloc, ahead - faults, faults, set, top)?;
    with_claim(alloc, ahead, claim, made)
}

/// The expression, and of each fault that it has failed where it is in the set, and else that it has not. The history bits go
/// on from the number `bit`.
fn with_set(
    alloc: Global,
    bit: u32,
    faults: u32,
    set: &[u32],
    top: &Expr<Flat>,
) -> Result<Expr<Flat>, OutOfMemory>
    requires { bit + faults < 2 ^ 32 }
    ensures { IfOk result (λ made. flat_tree made ≡ set_tree bit 1 faults set.now (flat_tree top.now)) }
{
    let mut made = copy_flat(alloc, top)?;
    for k in 0..faults {
        let part = failed(alloc, bit + k, has_number(set, u64::from(k) + 1))?;
        made = binary(alloc, Op::And, made, part)?;
    }
    Ok(made)
}

/// That a history bit is TRUE, or that it is not.
fn failed(alloc: Global, bit: u32, is_in: bool) -> Result<Expr<Flat>, OutOfMemory>
    ensures { IfOk result (λ made. flat_tree made ≡ (if is_in then now_of bit else not_of (now_of bit))) }
{
    if is_in {
        Ok(now(bit))
    } else {
        opposite(alloc, now(bit))
    }
}

/// The expression, and what speaks against a claim, where `ahead` has this number.
fn with_claim(
    alloc: Global,
    ahead: u32,
    claim: Option<Relation>,
    made: Expr<Flat>,
) -> Result<Expr<Flat>, OutOfMemory>
    requires { ahead + 1 < 2 ^ 32 }
    ensures { IfOk result (λ all. flat_tree all ≡ claim_tree ahead claim (flat_tree made)) }
{
    let against = match claim {
        None => return Ok(made),
        Some(Relation::Before) => opposite(alloc, now(ahead))?,
        Some(Relation::After) => opposite(alloc, now(ahead + 1))?,
        Some(Relation::Together) => binary(alloc, Op::Or, now(ahead), now(ahead + 1))?,
    };
    binary(alloc, Op::And, made, against)
}
