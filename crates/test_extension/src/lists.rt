//! Lists, names, domains and valuations.
use base_values::{Domain, Dotted, Members, Name, NumList, OutOfMemory, SymList, Valuation, Value};
use std::alloc::Global;

/// A list that was given these numbers.
fn numbers_of(alloc: Global, numbers: &[i64]) -> Result<NumList, OutOfMemory> {
    let mut list = NumList::new(alloc);
    for number in numbers {
        list.push(*number)?;
    }
    Ok(list)
}

/// Whether a list is so long and ends in this number.
fn ends_in(list: &NumList, count: usize, last: i64) -> bool {
    count > 0 && list.len() == count && *list.at(count - 1) == last
}

/// Whether a domain has the one value and not the other.
fn has_only(domain: &Domain, inside: Value, outside: Value) -> bool {
    domain.has(inside) && !domain.has(outside)
}

fn numbers_hold(alloc: Global) -> Result<bool, OutOfMemory> {
    let numbers = numbers_of(alloc, &[3, 3, -7])?;
    let is_list = ends_in(&numbers, 3, -7);
    let domain = Domain::Numbers(Members::new(numbers)?);
    Ok(is_list && domain.count() == 2 && has_only(&domain, Value::Num(-7), Value::Num(0)))
}

#[test]
fn a_list_and_its_domain_hold_what_was_put_in(rt: HostRuntime) {
    assert!(rt; matches!(numbers_hold(rt.alloc()), Ok(true)));
}

/// A copy of a path that was given two parts.
fn path_of(alloc: Global, first: &[u8], second: &[u8]) -> Result<Dotted, OutOfMemory> {
    let mut path = Dotted::new(alloc, Name::new(alloc, first)?)?;
    path.push(Name::new(alloc, second)?)?;
    path.copy()
}

/// Whether a path has so many parts, and this one at a place.
fn has_part(path: &Dotted, count: usize, place: usize, text: &[u8]) -> bool {
    path.parts().len() == count && place < path.len() && path.at(place).text() == text
}

fn paths_hold(alloc: Global) -> Result<bool, OutOfMemory> {
    let path = path_of(alloc, b"b1", b"charge")?;
    Ok(has_part(&path, 2, 1, b"charge"))
}

#[test]
fn a_name_holds_its_parts(rt: HostRuntime) {
    assert!(rt; matches!(paths_hold(rt.alloc()), Ok(true)));
}

/// A valuation that was given these values.
fn moment_of(alloc: Global, values: &[Value]) -> Result<Valuation, OutOfMemory> {
    let mut moment = Valuation::new(alloc);
    for value in values {
        moment.push(*value)?;
    }
    Ok(moment)
}

/// A copy whose first value, where it has one, was set.
fn with_first(moment: &Valuation, value: Value) -> Result<Valuation, OutOfMemory> {
    let mut moment = moment.copy()?;
    if moment.len() > 0 {
        moment.set(0, value);
    }
    Ok(moment)
}

/// Whether a valuation gives these two values and no other.
fn gives(moment: &Valuation, first: Value, second: Value) -> bool {
    moment.len() == 2 && moment.get(0) == first && moment.get(1) == second
}

fn valuations_hold(alloc: Global) -> Result<bool, OutOfMemory> {
    let before = moment_of(alloc, &[Value::Bool(true), Value::Sym(1)])?;
    let moment = with_first(&before, Value::Num(5))?;
    Ok(
        gives(&moment, Value::Num(5), Value::Sym(1))
            && gives(&before, Value::Bool(true), Value::Sym(1)),
    )
}

#[test]
fn a_valuation_gives_what_was_set(rt: HostRuntime) {
    assert!(rt; matches!(valuations_hold(rt.alloc()), Ok(true)));
}

/// How many values a domain has that lists no symbol.
fn count_of_none(alloc: Global) -> Result<u64, OutOfMemory> {
    let none = Members::new(SymList::new(alloc))?;
    Ok(Domain::Symbols(none).count())
}

#[test]
fn domains_without_a_list_have_their_values(rt: HostRuntime) {
    let range = Domain::Range { lo: -2, hi: 2 };
    assert!(rt; range.count() == 5 && has_only(&range, Value::Num(-2), Value::Bool(true)));
    assert!(rt; matches!(count_of_none(rt.alloc()), Ok(0)) && Domain::Boolean.count() == 2);
}
