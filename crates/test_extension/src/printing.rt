//! What is printed of copies of expressions, programs and instructions.
use crate::texts::{expression_of, instructions_of, is_text, program_of};
use fault_instructions::print_instructions;
use smv_language::{print_expr, print_program};
use std::alloc::Global;

/// The text of a copy of the expression that a text spells.
fn expression_text(alloc: Global, text: &[u8]) -> Option<Vec<u8>> {
    let read = expression_of(alloc, text)?;
    let same = read.copy(alloc).ok()?;
    print_expr(alloc, &same).ok()
}

#[test]
fn a_span_under_a_minus_keeps_its_parentheses(rt: HostRuntime) {
    let text = expression_text(rt.alloc(), b"-(1..3) in {a, b}");
    assert!(rt; is_text(text, b"((-(1..3)) in {a, b})"));
}

static LAMP: &[u8] = b"MODULE main VAR on:boolean; ASSIGN init(on):=TRUE; next(on):=on;";

static LINES: &[u8] =
    b"MODULE main\nVAR\n  on : boolean;\nASSIGN\n  init(on) := TRUE;\n  next(on) := on;\n";

/// The text of a copy of the program that a text spells.
fn program_text(alloc: Global, text: &[u8]) -> Option<Vec<u8>> {
    let read = program_of(alloc, text)?;
    let same = read.copy().ok()?;
    print_program(alloc, &same).ok()
}

#[test]
fn a_lamp_prints_line_by_line(rt: HostRuntime) {
    assert!(rt; is_text(program_text(rt.alloc(), LAMP), LINES));
}

static SLICES: [(&[u8], &[u8]); 2] = [
    (
        b"EXTENSION OF MODULE main SLICE L AFFECTS on WITH MODE d{0.5}:Permanent StuckAt(FALSE)WHEN on;",
        b"EXTENSION OF MODULE main\n  SLICE L AFFECTS on WITH\n    MODE d {0 . 5} : Permanent StuckAt(FALSE) WHEN on;\n",
    ),
    (
        b"EXTENSION OF MODULE main SLICE L AFFECTS on INITIALLY ANY WITH MODE d{0.5}:Permanent StuckAt(FALSE)WHEN on;",
        b"EXTENSION OF MODULE main\n  SLICE L AFFECTS on INITIALLY ANY WITH\n    MODE d {0 . 5} : Permanent StuckAt(FALSE) WHEN on;\n",
    ),
];

/// The text of the instructions that a text spells.
fn slices_text(alloc: Global, text: &[u8]) -> Option<Vec<u8>> {
    let read = instructions_of(alloc, text)?;
    print_instructions(alloc, &read).ok()
}

#[test]
fn a_slice_prints_its_start_and_a_mode_its_mark_and_guard(rt: HostRuntime) {
    for (i, (text, printed)) in SLICES.iter().enumerate() {
        assert!(rt;
            is_text(slices_text(rt.alloc(), text), printed),
            "slice {i}"
        );
    }
}
