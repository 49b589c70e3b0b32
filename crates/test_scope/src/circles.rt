//! Which definitions are on a circle: those that are needed by themselves, and not what only leads to one, is led
//! to by one, or lies between two.
ghost use Rattle.std.specs.Prelude.{◌≡◌, Some, codes, IfOk};
ghost use Rattle.smv_language.specs.ProgramTree.{program_tree};
ghost use Rattle.smv_scope.specs.SceneTree.{module_from, IsScene};

use base_values::{Dotted, Items, Name, OutOfMemory};
use smv_expression_reader::expression;
use smv_language::{Define, Expr, Module, Program, Section};
use smv_scope::FlatFault;
use smv_scope::modules::{Modules, main_place};
use smv_scope::names::Scene;
use smv_scope::needs::Needs;
use smv_scope::walk::Walk;
use std::alloc::Global;

/// Definitions of one module, named `a`, `b` and so on by their places, and of each whether it is on a circle: `o`
/// for one that is, and `.` for one that is not.
static GRAPHS: [(&[&[u8]], &[u8]); 9] = [
    (&[b"TRUE", b"a"], b".."),
    (&[b"a"], b"o"),
    (&[b"b", b"b", b"a"], b".o."),
    // Two circles with one definition between them, one before and one after them, and one that names itself.
    (
        &[
            b"b", b"c & d", b"b", b"e", b"f", b"e & g", b"TRUE", b"h | a",
        ],
        b".oo.oo.o",
    ),
    // The same from its other end.
    (
        &[
            b"a | h", b"TRUE", b"d & b", b"c", b"d", b"g", b"f & e", b"g",
        ],
        b"o.oo.oo.",
    ),
    // Circles that share a definition, and a long one with a way across.
    (&[b"b & c", b"a", b"a"], b"ooo"),
    (&[b"b & c", b"c & e", b"d", b"a", b"f", b"TRUE"], b"oooo.."),
    // A circle that is met after a chain was ended, and leads there.
    (
        &[b"b", b"TRUE", b"a & d", b"e & b", b"c", b"e & f"],
        b"..oooo",
    ),
    // What is named twice is no circle, and neither are two ways to one definition.
    (&[b"b & b & c", b"d", b"d", b"TRUE"], b"...."),
];

/// The value that a text spells.
fn value_of(alloc: Global, text: &[u8]) -> Option<Expr<Dotted>> {
    if text.len() < 100_000 {
        expression(alloc, text).ok()
    } else {
        None
    }
}

/// The definition of a name.
fn define_of(alloc: Global, letter: u8, text: &[u8]) -> Option<Define> {
    let name = Name::new(alloc, &[letter]).ok()?;
    let value = value_of(alloc, text)?;
    Some(Define { name, value })
}

/// The section of these definitions.
fn section_of(alloc: Global, texts: &[&[u8]]) -> Option<Section> {
    let mut defines = Items::new(alloc);
    for (letter, text) in b"abcdefgh".iter().zip(texts.iter()) {
        defines.push(define_of(alloc, *letter, text)?).ok()?;
    }
    Some(Section::Define(defines))
}

/// The program of one module with this section.
fn program_of(alloc: Global, section: Section) -> Result<Program, OutOfMemory> {
    let mut sections = Items::new(alloc);
    sections.push(section)?;
    let mut modules = Items::new(alloc);
    modules.push(Module {
        name: Name::new(alloc, b"main")?,
        formals: Items::new(alloc),
        sections,
    })?;
    Ok(Program { modules })
}

/// The tables of a program whose module `main` stands at a place.
pub(crate) fn scene_of(
    alloc: Global,
    program: &Program,
    main: usize,
) -> Result<Scene<'_>, FlatFault>
    requires main { module_from 0 (program_tree program.now) (codes "main") ≡ Some main }
    ensures scene { IfOk result IsScene }
{
    let modules = Modules::read(alloc, program, main)?;
    let (spots, _variables) = Walk::whole(alloc, &modules)?.into_parts();
    let scene = Scene::of_instances(alloc, modules, spots)?;
    Ok(scene)
}

/// Which definitions of a program whose module `main` stands at a place are on a circle.
fn circles_from(alloc: Global, program: &Program, main: usize) -> Result<Vec<bool>, FlatFault>
    requires main { module_from 0 (program_tree program.now) (codes "main") ≡ Some main }
{
    let scene = scene_of(alloc, program, main)?;
    let needs = Needs::of_scene(alloc, &scene)?;
    Ok(needs.on_circle)
}

/// Which definitions of a program are on a circle.
fn circles_of(alloc: Global, program: &Program) -> Option<Vec<bool>> {
    let main = main_place(program.modules.as_slice())?;
    circles_from(alloc, program, main).ok()
}

/// Whether marks are spelt so.
fn are_spelt(marks: &[bool], wanted: &[u8]) -> bool {
    marks.len() == wanted.len()
        && marks
            .iter()
            .zip(wanted.iter())
            .all(|(mark, letter)| *mark == (*letter == b'o'))
}

/// Whether these definitions have these marks.
fn is_marked_so(alloc: Global, texts: &[&[u8]], wanted: &[u8]) -> Option<bool> {
    let section = section_of(alloc, texts)?;
    let program = program_of(alloc, section).ok()?;
    let marks = circles_of(alloc, &program)?;
    Some(are_spelt(marks.as_slice(), wanted))
}

/// The place of the first graph with other marks.
fn first_wrong(alloc: Global) -> Option<usize> {
    for (place, (texts, wanted)) in GRAPHS.iter().enumerate() {
        if is_marked_so(alloc, texts, wanted) != Some(true) {
            return Some(place);
        }
    }
    None
}

#[test]
fn definitions_on_circles(rt: HostRuntime) {
    assert_eq!(rt; first_wrong(rt.alloc()), None);
}
