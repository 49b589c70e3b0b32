//! The names of what causes add.
//!
//! [`joined`] puts a word behind a cause's name, and [`numbered`] a word and a number.
ghost use Rattle.std.specs.Prelude.{◌≡◌, ◌++◌, IfOk};
ghost use Rattle.std.specs.Fmt.{decimal};

use base_values::{Items, Name, OutOfMemory};
use std::alloc::Global;

/// A text with another behind it, as a name.
pub fn joined(alloc: Global, text: &[u8], end: &[u8]) -> Result<Name, OutOfMemory>
    ensures { IfOk result (λ made. made ≡ text.now ++ end.now) }
{
    let mut bytes = Items::from_slice(alloc, text)?;
    bytes.append(end)?;
    Name::new(alloc, bytes.as_slice())
}

/// A text with another and a number behind it, as a name.
pub fn numbered(alloc: Global, text: &[u8], end: &[u8], number: usize) -> Result<Name, OutOfMemory>
    ensures { IfOk result (λ made. made ≡ text.now ++ (end.now ++ decimal number)) }
{
    let mut bytes = Items::from_slice(alloc, text)?;
    bytes.append(end)?;
    let digits = format!(in alloc; "{number}")?;
    bytes.append(digits.as_bytes())?;
    Name::new(alloc, bytes.as_slice())
}
