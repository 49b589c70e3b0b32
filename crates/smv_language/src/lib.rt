//! Programs and expressions as they are written, their text, and what they mean; flat models as data.
//!
//! An [`Expr`] is a tree over leaves; a written expression has dotted names as its leaves. Boxes have
//! pointers in them, so contracts never compare expressions: they compare trees, by `tree_of` of
//! `specs/ExpressionTree.antt`, and programs by `program_tree` of `specs/ProgramTree.antt`. Two expressions
//! are the same exactly where their trees are equal. All fields are public, so that the layers above
//! build and take apart what they need, and every definition and contract above speaks of trees.
//!
//! The definitions of the language stand in `specs/`, in this order for a reader: `Tree` and
//! `ProgramTree` (what there is), `Text` (the bytes that are printed), `Lexemes`, `Spells`,
//! `SpellsProgram` and `Bytes` (which trees a text spells), `Limits` (how deep an expression may be),
//! `Printed` and `WritableProgram` (which trees can be written), `Values` and `Evaluate` (what an
//! expression gives), `Scope` (what a name means), `May` (which values a written expression may have)
//! and `Trace` (the traces of a program).
//! The grammar and the meaning follow the NuSMV 2.6 manual; the order and the grouping of operators
//! are this project's own. The laws in `laws` join them: what is printed spells its tree, no tokens
//! spell two expressions, and more look-up steps change nothing. `proofs/Examples.antt` computes
//! examples of each.
//!
//! A flat model is one list of variables, and formulas over them whose names are numbers: the file
//! [`model`] has it with its roles, instances and faults, and [`copy_model`] copies it. Contracts see it
//! by `model_tree` of `specs/ModelTree.antt`, and `Flat` has the values of its expressions. Which flat
//! model is a program's is said a layer above.
//!
//! ```text
//! // a & b
//! Expr::Binary(Op::And, Box::new(alloc, a)?, Box::new(alloc, b)?)
//! ```
#![tactic(auto)]

mod copy;
pub mod copy_model;
mod copy_program;
mod expr;
mod laws;
mod measure;
pub mod model;
mod print;
mod print_modules;
mod program;

pub use base_values::NameList;
pub use copy::{copy_branches, copy_expressions};
pub use copy_program::{
    copy_assignments, copy_decls, copy_defines, copy_members, copy_modules, copy_sections,
};
pub use expr::{BranchList, Expr, ExprList, Op};
pub use laws::{
    deeper_is_the_same, leaves_decide, one_program, one_tree, printed_spells, spelled_is_writable,
    texts_spell,
};
pub use measure::{height, size};
pub use print::{append_dotted, append_names, print_expr};
pub use print_modules::print_program;
pub use program::{
    AssignList, Assignment, Decl, DeclList, Declared, Define, DefineList, Member, MemberList,
    Module, ModuleList, Moment, Program, Section, SectionList,
};
