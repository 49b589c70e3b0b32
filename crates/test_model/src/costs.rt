//! What expressions cost before their names are resolved: 1 for each node, and 64 for a product, a quotient and a remainder.
use smv_expression_reader::expression;
use smv_types::cost::{both, cost};
use std::alloc::Global;

static ROWS: [(&[u8], u64); 12] = [
    (b"TRUE", 1),
    (b"7", 1),
    (b"a.b.c", 1),
    (b"1..3", 1),
    (b"!a", 2),
    (b"next(x) = x", 4),
    (b"a & b & c", 5),
    (b"a * b + 1", 68),
    (b"a / b mod c", 131),
    (b"a ? b : c", 4),
    (b"case a : b; !c : TRUE; esac", 6),
    (b"x in {a, b, -x}", 7),
];

/// Costs that meet at the limit, and past it.
static SUMS: [(u64, u64, u64); 5] = [
    (0, 0, 0),
    (49_999, 1, 50_000),
    (50_000, 1, 50_001),
    (50_001, 50_001, 50_001),
    (u64::MAX, u64::MAX, 50_001),
];

/// The cost of the expression that a text spells.
fn cost_of(alloc: Global, text: &[u8]) -> Option<u64> {
    if text.len() >= 100_000 {
        return None;
    }
    let read = expression(alloc, text).ok()?;
    Some(cost(&read))
}

/// The place of the first text with another cost.
fn first_wrong(alloc: Global) -> Option<usize> {
    for (place, (text, wanted)) in ROWS.iter().enumerate() {
        if cost_of(alloc, text) != Some(*wanted) {
            return Some(place);
        }
    }
    None
}

/// The place of the first two costs that come to something else.
fn first_wrong_sum() -> Option<usize> {
    for (place, (a, b, wanted)) in SUMS.iter().enumerate() {
        if both(*a, *b) != *wanted {
            return Some(place);
        }
    }
    None
}

#[test]
fn costs_of_texts(rt: HostRuntime) {
    assert_eq!(rt; first_wrong(rt.alloc()), None);
    assert_eq!(rt; first_wrong_sum(), None);
}
