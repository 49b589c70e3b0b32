//! From the bits of an assignment to the values of a model's variables.
//!
//! [`valuation_of`] is the main function: it reads each variable from the bits that stand for it now. [`state_of`]
//! does so for the state alone and gives each input its least value, for the last moment of a path.
//! `src/setting.rt` goes the other way.
ghost use Rattle.std.specs.Prelude.{◌≡◌, ◌≤◌, ◌<◌, ◌+◌, ◌^◌, ◌&&◌, nat_eq, ◌≤ℤ◌, ◌<ℤ◌, ◌+ℤ◌, neg_ℤ, pos, List, length, if◌then◌else◌};
ghost use Rattle.smv_language.specs.Values.{Value as Told};
ghost use Rattle.smv_type_laws.specs.LeastValues.{with_inputs, least_values};
ghost use Rattle.smv_language.specs.ModelTree.{model_tree, role_of};
ghost use Rattle.sat_encoding_laws.specs.Inputs.{is_input};
ghost use Rattle.sat_encoding_laws.specs.Layout.{input_place};
ghost use Rattle.sat_encoding_laws.specs.Encodable.{IsEncodable};
ghost use Rattle.sat_encoding.specs.Domains.{domain_interval};
ghost use Rattle.sat_encoding.specs.Values.{StandFor, HasState, HasMoment, bits_at, bits_number, has_sign, value_of, as_symbol};
ghost use Rattle.sat_encoding.specs.Values.{last_digit, domain_read, least_in, values_read};
ghost use Rattle.sat_clauses.specs.Models.{values_of};

use crate::layout::{domain_width, ends_of, places_now};
use base_values::{Domain, Valuation, Value};
use sat_clauses::assign::Assign;
use sat_clauses::lit::Lit;
use smv_language::model::Role;
use smv_types::Typed;

/// Gives the variables the values whose bits an assignment has. Takes no memory.
pub fn valuation_of(t: &Typed, a: &Assign, into: &mut Valuation)
    requires encodable { IsEncodable (model_tree t.now.model) }
    requires long { length into.old ≡ length t.now.model.variables }
    ensures same { length into.new ≡ length into.old }
    ensures values { (values : List Told) → HasMoment (model_tree t.now.model) a.now values → StandFor t.now.model.symbols into.new values }
{
    // No variable is past 2^62.
    let _highest = a.vars();
    read_into(t, a, false, into);
}

/// Gives the variables of the state the values whose bits an assignment has, and each input the least value
/// of its domain. Takes no memory.
pub fn state_of(t: &Typed, a: &Assign, into: &mut Valuation)
    requires encodable { IsEncodable (model_tree t.now.model) }
    requires long { length into.old ≡ length t.now.model.variables }
    ensures same { length into.new ≡ length into.old }
    ensures values { (values : List Told) → HasState (model_tree t.now.model) a.now values →
        StandFor t.now.model.symbols into.new (with_inputs (model_tree t.now.model).variables values
        (least_values (model_tree t.now.model).symbols (model_tree t.now.model).variables)) }
{
    // No variable is past 2^62.
    let _highest = a.vars();
    read_into(t, a, true, into);
}

/// Gives the variables the values whose bits an assignment has; inputs, where so asked, the least.
fn read_into(t: &Typed, a: &Assign, least: bool, into: &mut Valuation)
    requires encodable { IsEncodable (model_tree t.now.model) }
    requires long { length into.old ≡ length t.now.model.variables }
    ensures { into.new ≡ values_read t.now.model.symbols least a.now 2 (input_place (model_tree t.now.model)) t.now.model.variables }
{
    let mut places = places_now(t);
    for i in 0..t.model().variables.len() {
        let role = t.model().variables.at(i).role;
        let domain = t.domain(i);
        let value = value_read(domain, a, places.of(role), is_least(least, role));
        into.set(i, value);
        places = places.after(role, domain_width(domain)).capped();
    }
}

/// The least value is asked for, of an input.
fn is_least(least: bool, role: Role) -> bool
    ensures { result ≡ (least && is_input (role_of role)) }
{
    least && matches!(role, Role::Input)
}

/// The value of a domain whose bits begin at `place`, or the least.
fn value_read(domain: &Domain, a: &Assign, place: u64, least: bool) -> Value
    requires least { 1 ≤ place }
    requires greatest { place ≤ 2 ^ 62 }
    ensures { result ≡ (if least then least_in domain.now (domain_interval domain.now) else domain_read domain.now a.now place) }
{
    if least {
        least_in(domain)
    } else {
        domain_read(domain, a, place)
    }
}

/// The value of a domain's least number, and FALSE.
fn least_in(domain: &Domain) -> Value
    ensures { result ≡ least_in domain.now (domain_interval domain.now) }
{
    match ends_of(domain) {
        Some(ends) => value_of(domain, ends.lo),
        None => Value::Bool(false),
    }
}

/// The value of a domain whose bits begin at `place`.
fn domain_read(domain: &Domain, a: &Assign, place: u64) -> Value
    requires least { 1 ≤ place }
    requires greatest { place ≤ 2 ^ 62 }
    ensures { result ≡ domain_read domain.now a.now place }
{
    let width = domain_width(domain).min(62);
    value_of(domain, number_at(a, place, width, has_sign(domain)))
}

/// The value of a domain that has this number.
fn value_of(domain: &Domain, n: i64) -> Value
    ensures { result ≡ value_of domain.now n }
{
    match domain {
        Domain::Boolean => Value::Bool(n != 0),
        Domain::Symbols(_) => Value::Sym(as_symbol(n)),
        Domain::Range { .. } | Domain::Numbers(_) => Value::Num(n),
    }
}

/// The number of a symbol.
fn as_symbol(n: i64) -> u32
    ensures { result ≡ as_symbol n }
{
    if 0 <= n && n < 4294967296 {
        n as u32
    } else {
        0
    }
}

/// Whether the bits of a domain have a sign: where it has numbers below 0.
fn has_sign(domain: &Domain) -> bool
    ensures { result ≡ has_sign (domain_interval domain.now) }
{
    match ends_of(domain) {
        Some(ends) => ends.lo < 0,
        None => false,
    }
}

/// The number whose bits so many variables from `place` on are; the last may be a sign.
fn number_at(a: &Assign, place: u64, width: u32, signed: bool) -> i64
    requires least { 1 ≤ place }
    requires greatest { place ≤ 2 ^ 62 }
    requires narrow { width ≤ 62 }
    ensures { result ≡ bits_number signed (bits_at a.now place width) }
{
    let mut n: i64 = 0;
    let mut left = width;
    while left > 0 {
        left -= 1;
        let bit = is_true(a, place + left as u64);
        n = with_digit(n, left, width, signed, bit);
    }
    n
}

/// The number with one digit more behind its others, of which `left` are left; the last of all may be a sign.
fn with_digit(n: i64, left: u32, width: u32, signed: bool, bit: bool) -> i64
    requires narrow { left < 4294967295 }
    requires low { neg_ℤ (pos (2 ^ 61)) ≤ℤ n }
    requires high { n <ℤ pos (2 ^ 61) }
    ensures { result ≡ (if nat_eq (left + 1) width then last_digit signed bit else (if bit then pos 1 else pos 0) +ℤ (n +ℤ n)) }
{
    if left + 1 == width {
        return if bit { if signed { -1 } else { 1 } } else { 0 };
    }
    2 * n + i64::from(bit)
}

/// Whether a variable is true; one that has no value is not.
fn is_true(a: &Assign, var: u64) -> bool
    requires least { 1 ≤ var }
    requires greatest { var < 2 ^ 63 }
    ensures { result ≡ values_of a.now var }
{
    if var > a.vars() {
        return false;
    }
    match a.value(Lit::new(var, false)) {
        Some(value) => value,
        None => false,
    }
}
