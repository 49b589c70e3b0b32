//! What is wrong with an input ([`Wrong`]), from the faults of the layers that read it: each has a `From`, by which its rule
//! becomes a part, a number and a place.
ghost use Rattle.std.specs.Prelude.{◌≡◌};
ghost use Rattle.verb_loading.specs.declared.wrong.Wrong.TheVariants as wrong;
ghost use Rattle.verb_loading.specs.Wrongs.{lex_wrong, parse_wrong, flat_wrong, type_wrong, weave_wrong, weave_rule};

use crate::status::{InputFault, Part};
use base_values::OutOfMemory;
use fault_extend::{WeaveCause, WeaveFault};
use fault_instructions::EffectFault;
use fault_rules as weave;
use smv_expression_reader::ParseFault;
use smv_flat::{FlatFault, FlatRule};
use smv_lexer::LexFault;
use smv_types::TypeFault;

/// Why an input is not taken.
#[derive(Clone, Copy, Debug, PartialEq, Eq)]
pub enum Wrong {
    /// It is refused.
    Refused(InputFault),
    /// There was no memory.
    Memory,
}

/// A rule that is broken at a place.
fn broken(part: Part, number: u32, place: u32) -> Wrong
    ensures { result ≡ wrong.Refused (record { part = part; number = number; place = place }) }
{
    Wrong::Refused(InputFault {
        part,
        number,
        place: u64::from(place),
    })
}

impl From<OutOfMemory> for Wrong {
    ghost from_gives = { λ _ made. made ≡ wrong.Memory };

    fn from(_: OutOfMemory) -> Wrong {
        Wrong::Memory
    }
}

impl From<LexFault> for Wrong {
    ghost from_gives = { λ fault made. made ≡ lex_wrong fault };

    fn from(fault: LexFault) -> Wrong {
        match fault {
            LexFault::BadByte(at) => broken(Part::Lex, 1, at),
            LexFault::OpenComment(at) => broken(Part::Lex, 2, at),
            LexFault::NumberTooBig(at) => broken(Part::Lex, 3, at),
            LexFault::OutOfMemory => Wrong::Memory,
        }
    }
}

impl From<ParseFault> for Wrong {
    ghost from_gives = { λ fault made. made ≡ parse_wrong fault };

    fn from(fault: ParseFault) -> Wrong {
        match fault {
            ParseFault::Lex(fault) => Wrong::from(fault),
            ParseFault::Unexpected(at) => broken(Part::Parse, 1, at),
            ParseFault::End(at) => broken(Part::Parse, 2, at),
            ParseFault::TooDeep => broken(Part::Parse, 3, 0),
            ParseFault::LeftOut(at) => broken(Part::Parse, 4, at),
            ParseFault::OutOfMemory => Wrong::Memory,
        }
    }
}

impl From<FlatFault> for Wrong {
    ghost from_gives = { λ fault made. made ≡ flat_wrong fault };

    fn from(fault: FlatFault) -> Wrong {
        match fault.rule {
            FlatRule::OutOfMemory => Wrong::Memory,
            rule => broken(Part::Flat, rule as u32, fault.item),
        }
    }
}

impl From<TypeFault> for Wrong {
    ghost from_gives = { λ fault made. made ≡ type_wrong fault };

    fn from(fault: TypeFault) -> Wrong {
        match fault.rule {
            smv_types::TypeRule::OutOfMemory => Wrong::Memory,
            rule => broken(Part::Kinds, rule as u32, fault.item),
        }
    }
}

impl From<WeaveFault> for Wrong {
    ghost from_gives = { λ fault made. made ≡ weave_wrong fault };

    fn from(fault: WeaveFault) -> Wrong {
        match fault.cause {
            WeaveCause::Weave(rule) => rule_broken(rule, fault.item),
            WeaveCause::Flat(inner) => Wrong::from(FlatFault {
                rule: inner.rule,
                item: fault.item,
            }),
            WeaveCause::Kinds(inner) => Wrong::from(TypeFault {
                rule: inner.rule,
                item: fault.item,
            }),
        }
    }
}

/// A rule of the weave that is broken at an item.
fn rule_broken(rule: weave::InstructionRule, item: u32) -> Wrong
    ensures { result ≡ weave_rule rule item }
{
    match rule {
        weave::InstructionRule::NoSuchModule => broken(Part::Weave, 1, item),
        weave::InstructionRule::NoSuchVariable => broken(Part::Weave, 2, item),
        weave::InstructionRule::NotAStateVariable => broken(Part::Weave, 3, item),
        weave::InstructionRule::DoubleSlice => broken(Part::Weave, 4, item),
        weave::InstructionRule::DoubleMode => broken(Part::Weave, 5, item),
        weave::InstructionRule::VariableTaken => broken(Part::Weave, 6, item),
        weave::InstructionRule::Effect(EffectFault::WrongKind) => broken(Part::Effect, 1, item),
        weave::InstructionRule::Effect(EffectFault::Outside) => broken(Part::Effect, 2, item),
        weave::InstructionRule::Effect(EffectFault::OneValueOnly) => broken(Part::Effect, 3, item),
        weave::InstructionRule::NameTaken => broken(Part::Weave, 8, item),
        weave::InstructionRule::TooManyFaults => broken(Part::Weave, 9, item),
        weave::InstructionRule::OutOfMemory => Wrong::Memory,
    }
}
