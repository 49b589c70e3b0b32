//! The names that a weave adds to a module: those of the own value, of a slice's state and of a mode's symbol.
//! Each has a `#`, and `specs/AddedNames.antt` has their texts.
ghost use Rattle.std.specs.Prelude.{◌≡◌, Some, None, IfOk};
ghost use Rattle.fault_instructions.specs.AddedNames.{own_name as own_name_of, mode_variable as mode_variable_of};
ghost use Rattle.fault_instructions.specs.AddedNames.{mode_symbol as mode_symbol_of};

use base_values::{ByteList, Name, OutOfMemory};
use std::alloc::Global;

/// The name of the variable that holds the own value of a variable.
pub fn own_name(alloc: Global, variable: &Name) -> Result<Name, OutOfMemory>
    ensures { IfOk result (λ name. name ≡ own_name_of variable.now) }
{
    let mut text = ByteList::from_slice(alloc, variable.text())?;
    text.append(b"#nominal")?;
    Name::new(alloc, text.as_slice())
}

/// The name of the variable that holds the state of a slice.
pub fn mode_variable(alloc: Global, slice: &Name) -> Result<Name, OutOfMemory>
    ensures { IfOk result (λ name. name ≡ mode_variable_of slice.now) }
{
    let mut text = ByteList::from_slice(alloc, slice.text())?;
    text.append(b"#mode")?;
    Name::new(alloc, text.as_slice())
}

/// The symbol of a slice's state in which no mode stands.
pub fn nominal_symbol(alloc: Global, slice: &Name) -> Result<Name, OutOfMemory>
    ensures { IfOk result (λ name. name ≡ mode_symbol_of slice.now None) }
{
    let mut text = ByteList::from_slice(alloc, slice.text())?;
    text.append(b"#nominal")?;
    Name::new(alloc, text.as_slice())
}

/// The symbol of a mode of a slice.
pub fn mode_symbol(alloc: Global, slice: &Name, mode: &Name) -> Result<Name, OutOfMemory>
    ensures { IfOk result (λ name. name ≡ mode_symbol_of slice.now (Some mode.now)) }
{
    let mut text = ByteList::from_slice(alloc, slice.text())?;
    text.append(b"#")?;
    text.append(mode.text())?;
    Name::new(alloc, text.as_slice())
}
