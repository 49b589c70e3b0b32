//! Which adviser of a panel is asked, and what each kind of them answers.
use base_values::OutOfMemory;
use sat_adviser::{Active, Adviser, CodeList, InOrder, Panel, Scripted};
use sat_clauses::lit::Lit;
use std::alloc::Global;
use std::test::Fail;

/// An adviser that answers these codes in turn.
fn scripted(alloc: Global, codes: &[u64]) -> Result<Scripted, OutOfMemory> {
    let mut answers = CodeList::new(alloc);
    answers.append(codes)?;
    Ok(Scripted::new(answers))
}

/// Appends an adviser that answers these codes in turn.
pub fn add_scripted(
    alloc: Global,
    advisers: &mut Vec<Box<dyn Adviser>>,
    codes: &[u64],
) -> Result<(), OutOfMemory> {
    let adviser = scripted(alloc, codes)?;
    advisers.push(Box::new(alloc, adviser)?)?;
    Ok(())
}

/// Appends an adviser that answers the variables in order.
pub fn add_in_order(
    alloc: Global,
    advisers: &mut Vec<Box<dyn Adviser>>,
) -> Result<(), OutOfMemory> {
    advisers.push(Box::new(alloc, InOrder::new())?)?;
    Ok(())
}

fn add_active(alloc: Global, advisers: &mut Vec<Box<dyn Adviser>>) -> Result<(), OutOfMemory> {
    advisers.push(Box::new(alloc, Active::new(alloc))?)?;
    Ok(())
}

// A panel of one adviser of each kind.
fn panel_of_each(alloc: Global) -> Result<Panel, OutOfMemory> {
    let mut advisers: Vec<Box<dyn Adviser>> = Vec::new(alloc);
    add_in_order(alloc, &mut advisers)?;
    add_active(alloc, &mut advisers)?;
    add_scripted(alloc, &mut advisers, &[4000000000, 7])?;
    Ok(Panel::new(advisers))
}

// What happens before picks.
#[derive(Clone, Copy)]
enum Event {
    Nothing,
    Ready,
    Rotate,
    // The clause [2 -1] is learned.
    Learn,
}

fn happen(panel: &mut Panel, event: Event) -> Result<(), OutOfMemory> {
    match event {
        Event::Nothing => {}
        Event::Ready => panel.ready(3)?,
        Event::Rotate => panel.rotate(),
        Event::Learn => panel.learned(&[Lit::new(2, false), Lit::new(1, true)]),
    }
    Ok(())
}

// Whether so many picks answer these codes, one after the other.
fn picks(panel: &mut Panel, codes: &[u64]) -> bool {
    for code in codes {
        if panel.pick() != *code || panel.last() != *code {
            return false;
        }
    }
    true
}

// The first row whose picks answer other codes.
fn first_wrong(panel: &mut Panel, rows: &[(Event, &[u64])]) -> Result<Option<usize>, OutOfMemory> {
    for (i, row) in rows.iter().enumerate() {
        happen(panel, row.0)?;
        if !picks(panel, row.1) {
            return Ok(Some(i));
        }
    }
    Ok(None)
}

// InOrder stands where it stood when its turn comes again, and Active answers what it heard last.
#[test]
fn asks_the_present_adviser(rt: HostRuntime) -> Result<(), Fail> {
    let mut panel = panel_of_each(rt.alloc())?;
    let wrong = first_wrong(
        &mut panel,
        &[
            (Event::Nothing, &[0]),
            (Event::Ready, &[3, 5, 7, 3]),
            (Event::Rotate, &[0]),
            (Event::Learn, &[3, 4, 0, 3]),
            (Event::Rotate, &[4000000000, 7, 4000000000]),
            (Event::Rotate, &[5]),
        ],
    )?;
    assert_eq!(rt; wrong, None);
    assert_eq!(rt; panel.asked(), 14);
    Ok(())
}
