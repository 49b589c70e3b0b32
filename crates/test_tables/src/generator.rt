//! The model of eight stages, the instructions and the top event, as they are printed.
use fault_generator::{generated_instructions, generated_model, generated_top};
use fault_instructions::print_instructions;
use smv_language::{print_expr, print_program};
use std::alloc::Global;

/// Of number 1, stages 1, 2 and 7 are on rail A, and the others on rail B.
const EIGHT_STAGES: &[u8] =
    b"MODULE Relay(feed)\nVAR\n  out : boolean;\nASSIGN\n  out := feed;\nMODULE main\nVAR\n  r1 : Relay(TRUE);\n  r2 : Relay(r1.out);\n  \
        r3 : Relay(TRUE);\n  r4 : Relay(r3.out);\n  r5 : Relay(r4.out);\n  r6 : Relay(r5.out);\n  r7 : Relay(r2.out);\n  r8 : \
        Relay(r6.out);\nDEFINE\n  dead := ((!r7.out) & (!r8.out));\n";

const FAULTS: &[u8] =
    b"EXTENSION OF MODULE Relay\n  SLICE R AFFECTS out WITH\n    MODE off : Permanent StuckAt(FALSE);\n";

fn model_text(alloc: Global) -> Option<Vec<u8>> {
    let model = generated_model(alloc, 1, 8).ok()?;
    print_program(alloc, &model).ok()
}

fn faults_text(alloc: Global) -> Option<Vec<u8>> {
    let faults = generated_instructions(alloc).ok()?;
    print_instructions(alloc, &faults).ok()
}

fn top_text(alloc: Global) -> Option<Vec<u8>> {
    let top = generated_top(alloc).ok()?;
    print_expr(alloc, &top).ok()
}

/// Whether there is a text, and it is this one.
fn is_text(found: Option<Vec<u8>>, wanted: &[u8]) -> bool {
    match found {
        Some(text) => text.as_slice() == wanted,
        None => false,
    }
}

#[test]
fn eight_stages_are_printed(rt: HostRuntime) {
    assert!(rt; is_text(model_text(rt.alloc()), EIGHT_STAGES));
    assert!(rt; is_text(faults_text(rt.alloc()), FAULTS));
    assert!(rt; is_text(top_text(rt.alloc()), b"dead"));
}
