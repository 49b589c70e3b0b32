//! What declared types are judged as ([`judge_declared`]), and the domains of the variables that have them
//! ([`declare`]). A domain is made also of a type that breaks a rule, and then says nothing.
ghost use Rattle.std.specs.Prelude.{◌≡◌, IfOk};
ghost use Rattle.smv_language.specs.ProgramTree.{declared_tree};
ghost use Rattle.smv_type_laws.specs.DeclaredKinds.{judged_declared};
ghost use Rattle.smv_types.specs.Answers.{told};
ghost use Rattle.smv_types.specs.Types.{begins_with_number, numbers_in, symbols_in, members_domain, domain_of};

use crate::members::judge_members;
use crate::numbers::TextNumbers;
use crate::sort::{Class, JudgedExpr, Sort, kept, range};
use base_values::{Domain, Members, NumList, OutOfMemory, SymList};
use smv_language::{Declared, Member};
use std::alloc::Global;

/// What is known of the values of a declared type, and the first rule that it breaks. An instance is no
/// variable; it counts as a truth value.
#[tactic(auto, using(crate::proofs::TypeLaws::told_range))]
pub(crate) fn judge_declared(alloc: Global, declared: &Declared) -> Result<JudgedExpr, OutOfMemory>
    ensures { IfOk result (λ j. j ≡ told (judged_declared (declared_tree declared.now))) }
{
    match declared {
        Declared::Boolean | Declared::Instance(_, _) => Ok(kept(Sort {
            class: Class::Truth,
            interval: None,
        })),
        Declared::Range(lo, hi) => Ok(range(*lo, *hi)),
        Declared::Members(members) => judge_members(alloc, members.as_slice()),
    }
}

/// The domain of a declared type. Where it breaks a rule the domain says nothing.
pub(crate) fn declare(
    alloc: Global,
    numbers: &TextNumbers<'_>,
    declared: &Declared,
) -> Result<Domain, OutOfMemory>
    ensures { IfOk result (λ d. d ≡ domain_of numbers.now.texts.now (declared_tree declared.now)) }
{
    match declared {
        Declared::Boolean | Declared::Instance(_, _) => Ok(Domain::Boolean),
        Declared::Range(lo, hi) => Ok(Domain::Range { lo: *lo, hi: *hi }),
        Declared::Members(members) => declare_members(alloc, numbers, members.as_slice()),
    }
}

/// The domain of a type that lists its values, in written order.
fn declare_members(
    alloc: Global,
    numbers: &TextNumbers<'_>,
    members: &[Member],
) -> Result<Domain, OutOfMemory>
    ensures { IfOk result (λ d. d ≡ members_domain numbers.now.texts.now members.now) }
{
    if begins_with_number(members) {
        let listed = listed_numbers(alloc, members)?;
        Ok(Domain::Numbers(Members::new(listed)?))
    } else {
        let listed = listed_symbols(alloc, numbers, members)?;
        Ok(Domain::Symbols(Members::new(listed)?))
    }
}

/// Whether the first member is a number.
fn begins_with_number(members: &[Member]) -> bool
    ensures { result ≡ begins_with_number members.now }
{
    matches!(members, [Member::Number(_), ..])
}

/// The members that are numbers.
fn listed_numbers(alloc: Global, members: &[Member]) -> Result<NumList, OutOfMemory>
    ensures { IfOk result (λ listed. listed ≡ numbers_in members.now) }
{
    let mut listed = NumList::new(alloc);
    for member in members {
        if let Member::Number(n) = member {
            listed.push(*n)?;
        }
    }
    Ok(listed)
}

/// The numbers of the members that are symbols.
fn listed_symbols(
    alloc: Global,
    numbers: &TextNumbers<'_>,
    members: &[Member],
) -> Result<SymList, OutOfMemory>
    ensures { IfOk result (λ listed. listed ≡ symbols_in numbers.now.texts.now members.now) }
{
    let mut listed = SymList::new(alloc);
    for member in members {
        if let Member::Symbol(text) = member {
            listed.push(numbers.symbol(text))?;
        }
    }
    Ok(listed)
}
