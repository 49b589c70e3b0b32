//! Which instances repeat an earlier one: those of a module without formals the first of that module, and what lies in an
//! instance that repeats another one what has its name there.
ghost use Rattle.std.specs.Prelude.{◌≡◌, Some, codes};
ghost use Rattle.smv_language.specs.ProgramTree.{program_tree};
ghost use Rattle.smv_scope.specs.SceneTree.{module_from};

use crate::circles::scene_of;
use smv_language::Program;
use smv_model_reader::program;
use smv_scope::FlatFault;
use smv_scope::likes::Likes;
use smv_scope::modules::main_place;
use std::alloc::Global;

/// Programs, and of each instance the number of the one that it repeats, or `.` where it repeats none. The instances stand
/// as the walk meets them, `main` first, and each before those that lie in it.
static PROGRAMS: [(&[u8], &[u8]); 8] = [
    (b"MODULE main", b"."),
    (
        b"MODULE main VAR a : M; b : M; c : M; MODULE M VAR x : boolean;",
        b"..11",
    ),
    // What is handed over may mean something else.
    (
        b"MODULE main VAR v : boolean; a : M(v); b : M(v); MODULE M(p) DEFINE d := p;",
        b"...",
    ),
    // Inside an instance that is repeated it means the same.
    (
        b"MODULE main VAR a : A; b : A; MODULE A VAR v : boolean; n : N(v); MODULE N(p) DEFINE d := p;",
        b"...12",
    ),
    (
        b"MODULE main VAR a : A; b : A; MODULE A VAR v : boolean; n : N(v); MODULE N(p) VAR o : O(p); MODULE O(q) DEFINE d := q;",
        b"....123",
    ),
    // Two of one module that are handed something lie in one instance.
    (
        b"MODULE main VAR a : A; b : A; MODULE A VAR v : boolean; m : N(v); n : N(!v); MODULE N(p) DEFINE d := p;",
        b"....123",
    ),
    // A module without formals in one that has some.
    (
        b"MODULE main VAR v : boolean; m : M(v); n : M(v); MODULE M(p) VAR k : K; MODULE K VAR x : boolean;",
        b"....2",
    ),
    // The first one lies deeper than the one that repeats it.
    (
        b"MODULE main VAR a : A; c : C; MODULE A VAR c : C; MODULE C VAR x : boolean;",
        b"...2",
    ),
];

/// The program that a text spells.
fn program_of(alloc: Global, text: &[u8]) -> Option<Program> {
    if text.len() < 100_000 {
        program(alloc, text).ok()
    } else {
        None
    }
}

/// The letter of what an instance repeats.
fn letter_of(like: Option<usize>) -> u8 {
    match like {
        Some(0) => b'0',
        Some(1) => b'1',
        Some(2) => b'2',
        Some(3) => b'3',
        Some(_) => b'?',
        None => b'.',
    }
}

/// Whether the instances of a program, whose module `main` stands at a place, repeat those that are wanted.
fn are_spelt_from(
    alloc: Global,
    program: &Program,
    main: usize,
    wanted: &[u8],
) -> Result<bool, FlatFault>
    requires main { module_from 0 (program_tree program.now) (codes "main") ≡ Some main }
{
    let scene = scene_of(alloc, program, main)?;
    let likes = Likes::of_scene(alloc, &scene)?;
    let are_spelt = wanted
        .iter()
        .enumerate()
        .all(|(spot, letter)| letter_of(likes.at(spot)) == *letter);
    Ok(are_spelt && scene.spots.len() == wanted.len())
}

/// Whether the instances of the program that a text spells repeat those that are wanted.
fn are_spelt(alloc: Global, text: &[u8], wanted: &[u8]) -> Option<bool> {
    let program = program_of(alloc, text)?;
    let main = main_place(program.modules.as_slice())?;
    are_spelt_from(alloc, &program, main, wanted).ok()
}

/// The place of the first program whose instances repeat others.
fn first_wrong(alloc: Global) -> Option<usize> {
    for (place, (text, wanted)) in PROGRAMS.iter().enumerate() {
        if are_spelt(alloc, text, wanted) != Some(true) {
            return Some(place);
        }
    }
    None
}

#[test]
fn repeated_instances(rt: HostRuntime) {
    assert_eq!(rt; first_wrong(rt.alloc()), None);
}
