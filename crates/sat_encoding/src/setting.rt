//! From the values of a model's variables to the bits of an assignment.
//!
//! [`bits_of`] is the main function: it sets the bits that stand for each variable now. `src/bits.rt` reads them back.
ghost use Rattle.std.specs.Prelude.{ℕ, None, slice_index_or, ◌≡◌, ◌≤◌, ◌<◌, ◌+◌, ◌^◌, List, length};
ghost use Rattle.smv_language.specs.Values.{Value as Told};
ghost use Rattle.smv_flat_laws.specs.FlatTrace.{AreInDomains};
ghost use Rattle.smv_language.specs.ModelTree.{model_tree};
ghost use Rattle.sat_encoding_laws.specs.Layout.{input_place, gates_place};
ghost use Rattle.sat_encoding_laws.specs.Bits.{number_bits, state_of, inputs_of};
ghost use Rattle.sat_encoding_laws.specs.Encodable.{IsEncodable};
ghost use Rattle.sat_encoding.specs.Values.{StandFor, IsElsewhere, Gives, AreFree, IsFreeMoment, number_of, with_bits, bits_set};

use crate::layout::{domain_width, places_now};
use base_values::{Valuation, Value};
use sat_clauses::assign::Assign;
use sat_clauses::lit::Lit;
use smv_types::Typed;

/// Gives the bits of a valuation now to the variables of its state and of its inputs, which are free before;
/// no other variable changes. Takes no memory.
pub fn bits_of(t: &Typed, v: &Valuation, into: &mut Assign)
    requires encodable { IsEncodable (model_tree t.now.model) }
    requires long { length v.now ≡ length t.now.model.variables }
    requires places { gates_place (model_tree t.now.model) ≤ length into.old }
    requires free { IsFreeMoment (model_tree t.now.model) into.old }
    ensures same { length into.new ≡ length into.old }
    ensures kept { (x : ℕ) → IsElsewhere (model_tree t.now.model) x → slice_index_or into.new x None ≡ slice_index_or into.old x None }
    ensures state { (values : List Told) → AreInDomains (model_tree t.now.model).variables values →
        StandFor t.now.model.symbols v.now values → Gives into.new 2 (state_of (model_tree t.now.model) values) }
    ensures inputs { (values : List Told) → AreInDomains (model_tree t.now.model).variables values →
        StandFor t.now.model.symbols v.now values →
        Gives into.new (input_place (model_tree t.now.model)) (inputs_of (model_tree t.now.model) values) }
{
    set_all(t, v, into);
}

/// Gives the variables of the places now the bits of the values.
fn set_all(t: &Typed, v: &Valuation, into: &mut Assign)
    requires encodable { IsEncodable (model_tree t.now.model) }
    requires long { length v.now ≡ length t.now.model.variables }
    requires places { gates_place (model_tree t.now.model) ≤ length into.old }
    requires free { IsFreeMoment (model_tree t.now.model) into.old }
    ensures { into.new ≡ bits_set t.now.model.symbols into.old 2 (input_place (model_tree t.now.model)) t.now.model.variables v.now }
{
    // No variable is past 2^62.
    let _highest = into.vars();
    let mut places = places_now(t);
    for i in 0..t.model().variables.len() {
        let role = t.model().variables.at(i).role;
        let width = domain_width(t.domain(i));
        set_bits(into, places.of(role), width, number_of(v.get(i)));
        places = places.after(role, width);
    }
}

/// A value as a number: FALSE is 0, TRUE is 1, and a symbol its number.
fn number_of(value: Value) -> i64
    ensures { result ≡ number_of value }
{
    match value {
        Value::Bool(b) => i64::from(b),
        Value::Num(n) => n,
        Value::Sym(symbol) => symbol as i64,
    }
}

/// Sets so many variables from `place` on to the bits of a number in two's complement.
fn set_bits(into: &mut Assign, place: u64, width: u32, n: i64)
    requires least { 1 ≤ place }
    requires range { place + width ≤ length into.old }
    requires free { AreFree into.old place width }
    ensures { into.new ≡ with_bits into.old place (number_bits width n) }
{
    // No variable is past 2^62.
    let _highest = into.vars();
    // The bits of -1 - n are those of n turned over.
    let turned = n < 0;
    let mut rest = if turned { (-1 - n) as u64 } else { n as u64 };
    for i in 0..width {
        let bit = (rest % 2 == 1) != turned;
        into.set(Lit::new(place + i as u64, !bit));
        rest /= 2;
    }
}
