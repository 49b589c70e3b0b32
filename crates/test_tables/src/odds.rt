//! The bounds of two sets, and their sum.
use base_values::{FaultSet, SetList};
use fault_odds::{OddsList, bound, print_odds};
use std::test::Fail;

const PRINTED: &[u8] =
    b"odds 1 0.025000000000000000\nodds 2 1.000000000000000000\nsum 1.025000000000000000 within 1\n";

#[test]
fn bounds_are_printed(rt: HostRuntime) -> Result<(), Fail> {
    let mut odds = OddsList::new(rt.alloc());
    odds.push(100_000_000_000_000_000)?;
    odds.push(250_000_000_000_000_000)?;
    odds.push(1)?;
    odds.push(500_000_000_000_000_000)?;
    assert_eq!(rt; bound(&odds, &[3, 4]), 1);
    let mut sets = SetList::new(rt.alloc());
    sets.push(FaultSet::from_slice(rt.alloc(), &[1, 2])?)?;
    sets.push(FaultSet::new(rt.alloc()))?;
    let text = print_odds(rt.alloc(), &sets, &odds)?;
    assert_eq!(rt; text.as_slice(), PRINTED);
    Ok(())
}
