//! Why bytes spell no tree: `ParseFault`, which callers of the readers see, and the two that stand inside.
//!
//! `GrowFault` is that of one node, and `BuildFault` that of a second pass.
ghost use Rattle.std.specs.Prelude.{◌≡◌};
ghost use Rattle.smv_expression_reader.specs.declared.fault.ParseFault.TheVariants as fault;
ghost use Rattle.smv_expression_reader.specs.declared.fault.GrowFault.TheVariants as grow;
ghost use Rattle.smv_expression_reader.specs.declared.fault.BuildFault.TheVariants as stop;
ghost use Rattle.smv_expression_reader.specs.Faults.{build_fault};

use base_values::OutOfMemory;
use smv_lexer::LexFault;

/// Why bytes spell no tree, or none within the limits. A place counts bytes from 0.
#[derive(Clone, Copy, Debug, PartialEq, Eq)]
pub enum ParseFault {
    /// The bytes have no tokens.
    Lex(LexFault),
    /// No text goes on with the token at this place.
    Unexpected(u32),
    /// The text ends before it spells a tree. The place is the number of bytes.
    End(u32),
    /// The text spells a tree, but one that is higher than [`MOST_HEIGHT`](base_values::limits::MOST_HEIGHT), or its
    /// parentheses are nested deeper.
    TooDeep,
    /// No text goes on with the word at this place, which stands for a part of the language that is
    /// left out.
    LeftOut(u32),
    /// There was no memory.
    OutOfMemory,
}

impl From<OutOfMemory> for ParseFault {
    ghost from_gives = { λ _ made. made ≡ fault.OutOfMemory };

    fn from(_refused: OutOfMemory) -> ParseFault {
        ParseFault::OutOfMemory
    }
}

/// Why a tree was not made.
#[derive(Clone, Copy, Debug, PartialEq, Eq)]
pub enum GrowFault {
    /// It would be higher than [`MOST_HEIGHT`](base_values::limits::MOST_HEIGHT).
    TooDeep,
    /// There was no memory.
    OutOfMemory,
}

impl From<OutOfMemory> for GrowFault {
    ghost from_gives = { λ _ made. made ≡ grow.OutOfMemory };

    fn from(_refused: OutOfMemory) -> GrowFault {
        GrowFault::OutOfMemory
    }
}

/// Why no tree was made of a list of tokens.
#[derive(Clone, Copy, Debug, PartialEq, Eq)]
pub enum BuildFault {
    /// The tree is higher than [`MOST_HEIGHT`](base_values::limits::MOST_HEIGHT), or its parentheses are nested deeper.
    TooDeep,
    /// The tokens spell no tree.
    NoTree,
    /// There was no memory.
    OutOfMemory,
}

impl From<OutOfMemory> for BuildFault {
    ghost from_gives = { λ _ made. made ≡ stop.OutOfMemory };

    fn from(_refused: OutOfMemory) -> BuildFault {
        BuildFault::OutOfMemory
    }
}

impl From<GrowFault> for BuildFault {
    ghost from_gives = { λ fault made. made ≡ build_fault fault };

    fn from(fault: GrowFault) -> BuildFault {
        match fault {
            GrowFault::TooDeep => BuildFault::TooDeep,
            GrowFault::OutOfMemory => BuildFault::OutOfMemory,
        }
    }
}
