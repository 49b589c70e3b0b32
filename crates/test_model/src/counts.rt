//! What programs cost at least, counted by hand: 1 for each node of an expression, 64 for a product, as many as its members
//! for a type and 3 for a range, once for each instance.
ghost use Rattle.std.specs.Prelude.{◌≡◌, Some, codes};
ghost use Rattle.smv_language.specs.ProgramTree.{program_tree};
ghost use Rattle.smv_scope.specs.SceneTree.{module_from};

use smv_language::Program;
use smv_model::least_cost;
use smv_model_reader::program;
use smv_scope::FlatFault;
use smv_scope::modules::{Modules, main_place};
use smv_scope::walk::Walk;
use std::alloc::Global;

/// A text, and what its program costs at least.
type Row = (&'static [u8], u64);

static ROWS: [Row; 12] = [
    (b"MODULE main", 0),
    // Types: none for a boolean, 3 for a range, as many as the members.
    (
        b"MODULE main VAR a : boolean; n : 0..9; m : {on, off, 7};",
        6,
    ),
    // A frozen variable keeps its value, which is a condition of 4 nodes.
    (b"MODULE main FROZENVAR a : boolean; n : 0..9;", 11),
    (b"MODULE main DEFINE a := TRUE; b := a & !a;", 5),
    (b"MODULE main DEFINE a := 2 * 3; b := 7 mod 2;", 132),
    // x := e becomes x in e, next(x) := e becomes next(x) in e.
    (b"MODULE main VAR x : boolean; ASSIGN x := TRUE;", 3),
    (
        b"MODULE main VAR x : boolean; ASSIGN init(x) := TRUE; next(x) := !x;",
        8,
    ),
    (
        b"MODULE main VAR x : boolean; INIT x; INVAR x; TRANS next(x) = x; CONSTANTS c;",
        6,
    ),
    // Each instance costs what its module costs, and so do those inside it.
    (
        b"MODULE main VAR a : M; b : M; MODULE M VAR n : 0..7; INIT n > 0;",
        12,
    ),
    (
        b"MODULE main VAR a : N; b : N; MODULE N VAR c : M; d : M; INIT TRUE; MODULE M VAR n : 0..7;",
        14,
    ),
    // A name that is handed over is no definition, anything else is one.
    (
        b"MODULE main VAR a : M(x, !x); x : boolean; MODULE M(p, q) INIT p;",
        3,
    ),
    // What no instance has costs nothing.
    (b"MODULE main VAR x : 0..3; MODULE M VAR n : 0..7;", 3),
];

/// What a program costs at least whose module `main` stands at a place.
fn counted_from(alloc: Global, program: &Program, main: usize) -> Result<u64, FlatFault>
    requires main { module_from 0 (program_tree program.now) (codes "main") ≡ Some main }
{
    let modules = Modules::read(alloc, program, main)?;
    let (spots, _variables) = Walk::whole(alloc, &modules)?.into_parts();
    Ok(least_cost(alloc, &modules, spots.as_slice())?)
}

/// What a program costs at least, where it keeps the rules of modules and of the walk.
fn counted_of(alloc: Global, program: &Program) -> Option<u64> {
    let main = main_place(program.modules.as_slice())?;
    counted_from(alloc, program, main).ok()
}

/// What the program of a text costs at least.
fn counted(alloc: Global, text: &[u8]) -> Option<u64> {
    if text.len() >= 100_000 {
        return None;
    }
    let read = program(alloc, text).ok()?;
    counted_of(alloc, &read)
}

/// The place of the first text with another count.
fn first_wrong(alloc: Global) -> Option<usize> {
    for (place, (text, wanted)) in ROWS.iter().enumerate() {
        if counted(alloc, text) != Some(*wanted) {
            return Some(place);
        }
    }
    None
}

#[test]
fn counted_by_hand(rt: HostRuntime) {
    assert_eq!(rt; first_wrong(rt.alloc()), None);
}
