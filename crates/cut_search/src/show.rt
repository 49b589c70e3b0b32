//! From a path of the system to a set of faults and the trace that shows it.
ghost use Rattle.std.specs.Prelude.{◌≡◌, All, ℕ, ◌≤◌, ◌<◌, ◌+◌, ◌^◌, [], ◌∷◌, ◌++◌, nat_eq, length, IfOk, OnOk, take, map, slice_index_or};
ghost use Rattle.std.specs.Prelude.{if◌then◌else◌};
ghost use Rattle.cut_search_laws.specs.FlatSearch.{AreReadFrom, IsLawfulMoment};
ghost use Rattle.cut_search.specs.Values.{trace_of};
ghost use Rattle.cut_search.specs.Bits.{is_set_at, bits_set};
ghost use Rattle.cut_search.specs.Progress.{IsReadOf, Shown};

use crate::encoded::Encoded;
use crate::sets::{FaultSet, MomentList, WitnessedSet};
use base_values::{OutOfMemory, Valuation, Value};
use cut_frames::StepList;
use std::alloc::Global;

/// Appends the number of a bit, if the bit is TRUE.
fn note(
    set: &mut FaultSet,
    moment: &Valuation,
    variable: usize,
    number: u32,
) -> Result<(), OutOfMemory>
    requires { variable < length moment.now }
    ensures { OnOk result (set.new ≡ set.old ++ (if is_set_at moment.now variable then number ∷ [] else [])) }
{
    match moment.get(variable) {
        Value::Bool(true) => set.push(number),
        _ => Ok(()),
    }
}

/// The numbers of the bits that are TRUE, of so many from the first one's variable on.
#[tactic(auto, using(crate::proofs::BitLemmas::bits_more))]
fn bits_of(
    alloc: Global,
    moment: &Valuation,
    first: usize,
    count: usize,
) -> Result<FaultSet, OutOfMemory>
    requires within { first + count ≤ length moment.now }
    requires few { count < 2 ^ 31 }
    ensures { IfOk result (λ set. set ≡ bits_set moment.now first count) }
{
    // The values lie in memory, so that their number is below 2^63.
    let _all = moment.len();
    let mut set = FaultSet::new(alloc);
    for i in 0..count {
        note(&mut set, moment, first + i, i as u32 + 1)?;
    }
    Ok(set)
}

/// The first values of a moment.
#[tactic(auto, using(smv_language::proofs::ListLaws::take_next))]
fn cut_moment(alloc: Global, moment: &Valuation, count: usize) -> Result<Valuation, OutOfMemory>
    requires { count ≤ length moment.now }
    ensures { IfOk result (λ cut. cut ≡ take count moment.now) }
{
    let mut cut = Valuation::new(alloc);
    for i in 0..count {
        cut.push(moment.get(i))?;
    }
    Ok(cut)
}

/// Each moment's first values.
fn cut_trace(alloc: Global, trace: &MomentList, count: usize) -> Result<MomentList, OutOfMemory>
    requires { All (λ v. count ≤ length v) trace.now }
    ensures { IfOk result (λ cut. cut ≡ map (take count) trace.now) }
{
    let mut cut = MomentList::new(alloc);
    for moment in trace.as_slice() {
        cut.push(cut_moment(alloc, moment, count)?)?;
    }
    Ok(cut)
}

/// Reads a moment of a path.
fn read_moment<E: Encoded>(
    alloc: Global,
    model: &E,
    path: &StepList,
    i: usize,
) -> Result<Valuation, OutOfMemory>
    requires within { i < length path.now }
    requires lawful { IsLawfulMoment (E.problem model.now) path.now i }
    ensures { IfOk result (λ v. IsReadOf (E.problem model.now) (nat_eq (i + 1) (length path.now)) (slice_index_or path.now i []) v) }
{
    let count = path.len();
    let value = model.valuation_of(alloc, path.at(i), i + 1 == count)?;
    Ok(value)
}

/// Reads the moments of a path as valuations.
fn read_path<E: Encoded>(
    alloc: Global,
    model: &E,
    path: &StepList,
) -> Result<MomentList, OutOfMemory>
    requires lawful { (i : ℕ) → i < length path.now → IsLawfulMoment (E.problem model.now) path.now i }
    ensures { IfOk result (λ long. AreReadFrom (E.problem model.now) path.now (trace_of (E.problem model.now).model.symbols long)) }
{
    let mut long = MomentList::new(alloc);
    for i in 0..path.len() {
        long.push(read_moment(alloc, model, path, i)?)?;
    }
    Ok(long)
}

/// From a path of the system to the set of faults that it has failed, and its trace without history.
pub fn show<E: Encoded>(
    alloc: Global,
    model: &E,
    path: &StepList,
) -> Result<WitnessedSet, OutOfMemory>
    requires some { 0 < length path.now }
    requires lawful { (i : ℕ) → i < length path.now → IsLawfulMoment (E.problem model.now) path.now i }
    ensures { IfOk result (λ f. Shown (E.problem model.now) path.now f) }
{
    let long = read_path(alloc, model, path)?;
    let own = model.variables();
    let faults = model.faults();
    let set = bits_of(alloc, long.at(long.len() - 1), own, faults)?;
    let trace = cut_trace(alloc, &long, own)?;
    Ok(WitnessedSet::new(set, trace))
}
