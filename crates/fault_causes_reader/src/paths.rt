//! The names of faults, as paths of names.
//!
//! A path is compared part by part, by the texts of its parts. [`is_fault_name`], [`has_double`] and [`names_no_fault`] are what the
//! rules of causes ask.
ghost use Rattle.std.specs.Prelude.{◌≡◌, not};
ghost use Rattle.std.specs.List.{list_any};
ghost use Rattle.smv_language.specs.Texts.{same_text};
ghost use Rattle.smv_language.specs.declared.model.Fault.{Fault};
ghost use Rattle.fault_causes_reader.specs.FaultPaths.{paths_of};
ghost use Rattle.fault_cause_laws.specs.CauseRules.{same_path, is_path_among, has_double as has_double_path};
ghost use Rattle.smv_language.specs.ModelTree.{name_of_fault};

use base_values::{Name, NameList};
use smv_language::model::Fault;

/// Whether both names have the same text.
pub(crate) fn has_text(x: &Name, y: &Name) -> bool
    ensures { result ≡ same_text x.now y.now }
{
    x.is_same(y)
}

/// Whether both are the same names.
pub(crate) fn is_same_path(x: &[Name], y: &[Name]) -> bool
    ensures { result ≡ same_path x.now y.now }
{
    if x.len() != y.len() {
        return false;
    }
    for i in 0..x.len() {
        if !has_text(&x[i], &y[i]) {
            return false;
        }
    }
    true
}

/// Whether a path is one of these.
pub(crate) fn is_path_of(paths: &[NameList], path: &NameList) -> bool
    ensures { result ≡ is_path_among paths.now path.now }
{
    paths
        .iter()
        .any(|other| is_same_path(other.as_slice(), path.as_slice()))
}

/// Whether a path is a fault's name.
pub(crate) fn is_fault_name(faults: &[Fault], path: &NameList) -> bool
    ensures { result ≡ is_path_among (paths_of faults.now) path.now }
{
    has_path(faults, path)
}

/// Whether some fault has the name.
fn has_path(faults: &[Fault], path: &NameList) -> bool
    ensures { result ≡ list_any (λ (f : Fault). same_path (name_of_fault f) path.now) faults.now }
{
    faults
        .iter()
        .any(|fault| is_same_path(fault.name.parts(), path.as_slice()))
}

/// Whether some path stands twice.
pub(crate) fn has_double(paths: &[NameList]) -> bool
    ensures { result ≡ has_double_path paths.now }
{
    for i in 0..paths.len() {
        if is_path_of(&paths[i + 1..], &paths[i]) {
            return true;
        }
    }
    false
}

/// Whether some path is no fault's name.
pub(crate) fn names_no_fault(faults: &[Fault], paths: &[NameList]) -> bool
    ensures { result ≡ list_any (λ p. not (is_path_among (paths_of faults.now) p)) paths.now }
{
    paths.iter().any(|path| !is_fault_name(faults, path))
}
