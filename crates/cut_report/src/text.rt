//! Pieces of text that are appended to the end of one buffer, so that the work is linear in the text.
ghost use Rattle.std.specs.Prelude.{◌≡◌, ◌++◌, OnOk};
ghost use Rattle.cut_report.specs.Names.{printed_name};

use base_values::{ByteList, OutOfMemory};
use smv_language::append_names;
use smv_language::model::Variable;

/// Appends the name of a variable, with dots between its parts.
pub(crate) fn append_variable(text: &mut ByteList, variable: &Variable) -> Result<(), OutOfMemory>
    ensures { OnOk result (text.new ≡ text.old ++ printed_name variable.now) }
{
    append_names(text, variable.path.parts(), b".")
}
