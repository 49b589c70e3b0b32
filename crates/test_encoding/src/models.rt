//! The typed models of texts, and the moments that patterns of bits stand for.
ghost use Rattle.std.specs.Prelude.{◌<◌, ◌↔◌, IsTrue, IfOk, IfSome, All, length};
ghost use Rattle.smv_language.specs.ProgramTree.{declared_tree, program_tree};
ghost use Rattle.smv_flat_laws.specs.Rules.{IsAccepted};
ghost use Rattle.smv_flat_laws.specs.Model.{IsFlatOf};
ghost use Rattle.smv_language.specs.ModelTree.{model_tree};
ghost use Rattle.sat_encoding_laws.specs.Encodable.{IsEncodable};
ghost use Rattle.sat_encoding_laws.specs.Laws.{HasMember};
ghost use Rattle.smv_evaluation.specs.EvaluableModels.{IsEvaluable, IsLawful, IsFilled};
ghost use Rattle.test_encoding.specs.Values.{HasAt, IsKnownSymbol};

use base_values::{Domain, OutOfMemory, Valuation, Value};
use smv_evaluation::{Table, fill, holds_first, holds_step};
use smv_flat::flatten;
use smv_language::model::{FlatModel, Variable};
use smv_language::{Declared, Program};
use smv_model_reader::program;
use smv_types::{Typed, check_model};
use std::alloc::Global;
use std::process::Abort;
use std::test::Fail;

/// The bits of a variable, by how many patterns they have: of a state variable, of one whose last bit is a sign, or of an
/// input.
#[derive(Clone, Copy)]
pub enum BitsPlace {
    Plain(u32),
    Signed(u32),
    Input(u32),
}

/// The bits of a state and of inputs, those of the first variable lowest.
#[derive(Clone, Copy)]
pub struct Bits {
    pub state: u32,
    pub inputs: u32,
}

/// A text in parts.
fn joined(alloc: Global, parts: &[&[u8]]) -> Result<Vec<u8>, OutOfMemory> {
    let mut text = Vec::new(alloc);
    for part in parts {
        text.extend_from_slice(part)?;
    }
    Ok(text)
}

/// The program of a text in parts.
pub fn program_of(rt: &impl Abort, alloc: Global, parts: &[&[u8]]) -> Result<Program, Fail> {
    let text = joined(alloc, parts)?;
    assert!(rt; text.len() < 10_000);
    Ok(program(alloc, &text)?)
}

/// Whether a type has a value, if it is written as a list.
fn has_member(declared: &Declared) -> bool
    ensures { IsTrue result ↔ HasMember (declared_tree declared.now) }
{
    match declared {
        Declared::Members(members) => !members.is_empty(),
        _ => true,
    }
}

/// Whether the types of all variables do.
fn have_members(variables: &[Variable]) -> bool
    ensures { IsTrue result ↔ All (λ x. HasMember (declared_tree x.declared)) variables.now }
{
    variables.iter().all(|x| has_member(&x.declared))
}

/// Ends the test where a model has many symbols, or an empty type.
fn check_small(rt: &impl Abort, m: &FlatModel)
    ensures few { length m.now.symbols < 1000 }
    ensures members { All (λ x. HasMember (declared_tree x.declared)) m.now.variables }
{
    assert!(rt; m.symbols.len() < 1000);
    assert!(rt; have_members(m.variables.as_slice()));
}

/// The flat model of a program, with few symbols and no empty type.
fn flat_of(rt: &impl Abort, alloc: Global, p: &Program) -> Result<FlatModel, Fail>
    ensures accepted { IfOk result (λ m. IsAccepted (program_tree p.now)) }
    ensures flat { IfOk result (λ m. IsFlatOf (program_tree p.now) (model_tree m)) }
    ensures few { IfOk result (λ m. length m.symbols < 1000) }
    ensures members { IfOk result (λ m. All (λ x. HasMember (declared_tree x.declared)) m.variables) }
{
    let model = flatten(alloc, p)?;
    check_small(rt, &model);
    Ok(model)
}

/// The typed model of a program.
pub fn typed_of(rt: &impl Abort, alloc: Global, p: &Program) -> Result<Typed, Fail>
    ensures encodable { IfOk result (λ t. IsEncodable (model_tree t.model)) }
    ensures evaluable { IfOk result (λ t. IsEvaluable (model_tree t.model)) }
{
    let model = flat_of(rt, alloc, p)?;
    let typed = check_model(alloc, model)?;
    Ok(typed)
}

/// The typed model of a text in parts.
pub fn model_of(rt: &impl Abort, alloc: Global, parts: &[&[u8]]) -> Result<Typed, Fail>
    ensures encodable { IfOk result (λ t. IsEncodable (model_tree t.model)) }
    ensures evaluable { IfOk result (λ t. IsEvaluable (model_tree t.model)) }
{
    let p = program_of(rt, alloc, parts)?;
    typed_of(rt, alloc, &p)
}

impl Bits {
    /// Takes the lowest bits of the state, as a number without a sign.
    fn take_state(&mut self, patterns: u32) -> u32 {
        let patterns = patterns.max(1);
        let taken = self.state % patterns;
        self.state /= patterns;
        taken
    }

    /// Takes the lowest bits of the inputs, as a number without a sign.
    fn take_inputs(&mut self, patterns: u32) -> u32 {
        let patterns = patterns.max(1);
        let taken = self.inputs % patterns;
        self.inputs /= patterns;
        taken
    }

    /// Takes the lowest bits, which are those of the next variable, as a number without a sign.
    fn take(&mut self, place: BitsPlace) -> u32 {
        match place {
            BitsPlace::Plain(patterns) | BitsPlace::Signed(patterns) => self.take_state(patterns),
            BitsPlace::Input(patterns) => self.take_inputs(patterns),
        }
    }
}

/// The number of bits in two's complement, where the last is a sign.
fn number_of(place: BitsPlace, bits: u32) -> i64 {
    match place {
        BitsPlace::Signed(patterns) if bits >= patterns / 2 => i64::from(bits)
            - i64::from(patterns),
        _ => i64::from(bits),
    }
}

/// The value of such bits: FALSE is 0, and a symbol has its number.
fn value_of(domain: &Domain, place: BitsPlace, bits: u32) -> Value {
    match domain {
        Domain::Boolean => Value::Bool(bits != 0),
        Domain::Symbols(_) => Value::Sym(bits),
        _ => Value::Num(number_of(place, bits)),
    }
}

/// The value of a variable that has these bits, or FALSE where no variable has this number.
fn value_at(t: &Typed, i: usize, place: BitsPlace, bits: u32) -> Value {
    if i < t.model().variables.len() {
        value_of(t.domain(i), place, bits)
    } else {
        Value::Bool(false)
    }
}

/// The values of the variables that have these bits.
fn moment_of(
    alloc: Global,
    t: &Typed,
    places: &[BitsPlace],
    bits: Bits,
) -> Result<Valuation, OutOfMemory> {
    let mut left = bits;
    let mut v = Valuation::new(alloc);
    for (i, place) in places.iter().enumerate() {
        let taken = left.take(*place);
        v.push(value_at(t, i, *place, taken))?;
    }
    Ok(v)
}

/// Whether a value that is a symbol has the number of one.
fn is_known_symbol(t: &Typed, value: Value) -> bool
    ensures { IsTrue result ↔ IsKnownSymbol (length t.now.model.symbols) value }
{
    match value {
        Value::Sym(number) => (number as usize) < t.model().symbols.len(),
        _ => true,
    }
}

/// Whether the value is one of the variable's domain.
fn has_at(t: &Typed, i: usize, value: Value) -> bool
    requires encodable { IsEncodable (model_tree t.now.model) }
    requires within { i < length t.now.model.variables }
    ensures { IsTrue result → HasAt t.now.model i value }
{
    t.domain(i).has(value) && is_known_symbol(t, value)
}

/// Whether there is a value for each variable, and each is one of its domain.
fn is_lawful(t: &Typed, v: &Valuation) -> bool
    requires encodable { IsEncodable (model_tree t.now.model) }
    ensures { IsTrue result → IsLawful (model_tree t.now.model) v.now }
{
    if v.len() != t.model().variables.len() {
        return false;
    }
    for i in 0..v.len() {
        if !has_at(t, i, v.get(i)) {
            return false;
        }
    }
    true
}

/// The table of a moment; none where some value is not of its domain.
fn table_of(alloc: Global, t: &Typed, v: &Valuation) -> Result<Option<Table>, OutOfMemory>
    requires encodable { IsEncodable (model_tree t.now.model) }
    requires evaluable { IsEvaluable (model_tree t.now.model) }
    ensures { IfOk result (λ made. IfSome made (IsFilled (model_tree t.now.model))) }
{
    if !is_lawful(t, v) {
        return Ok(None);
    }
    let mut table = Table::for_model(alloc, t)?;
    fill(t, v, &mut table);
    Ok(Some(table))
}

/// The table of the values of these bits; none where some value is not of its domain.
fn table_at(
    alloc: Global,
    t: &Typed,
    places: &[BitsPlace],
    bits: Bits,
) -> Result<Option<Table>, OutOfMemory>
    requires encodable { IsEncodable (model_tree t.now.model) }
    requires evaluable { IsEvaluable (model_tree t.now.model) }
    ensures { IfOk result (λ made. IfSome made (IsFilled (model_tree t.now.model))) }
{
    let v = moment_of(alloc, t, places, bits)?;
    table_of(alloc, t, &v)
}

/// Whether the values of these bits are those of a first moment.
pub fn is_first(
    alloc: Global,
    t: &Typed,
    places: &[BitsPlace],
    bits: Bits,
) -> Result<bool, OutOfMemory>
    requires encodable { IsEncodable (model_tree t.now.model) }
    requires evaluable { IsEvaluable (model_tree t.now.model) }
{
    match table_at(alloc, t, places, bits)? {
        Some(now) => Ok(holds_first(t, &now)),
        None => Ok(false),
    }
}

/// Whether a step leads from the values of these bits to those of others.
pub fn is_step(
    alloc: Global,
    t: &Typed,
    places: &[BitsPlace],
    from: Bits,
    to: Bits,
) -> Result<bool, OutOfMemory>
    requires encodable { IsEncodable (model_tree t.now.model) }
    requires evaluable { IsEvaluable (model_tree t.now.model) }
{
    let now = table_at(alloc, t, places, from)?;
    let next = table_at(alloc, t, places, to)?;
    match (&now, &next) {
        (Some(now), Some(next)) => Ok(holds_step(t, now, next)),
        _ => Ok(false),
    }
}
