//! Which faults a trace has failed ([`has_failed`]): those whose mode stands at some moment.
ghost use Rattle.std.specs.Prelude.{◌≡◌, ◌<◌, length, All};
ghost use Rattle.std.specs.List.{list_any};
ghost use Rattle.smv_language.specs.Trace.{Each};
ghost use Rattle.smv_flat_laws.specs.FlatTrace.{stands_in_some};
ghost use Rattle.smv_language.specs.ModelTree.{model_tree};
ghost use Rattle.smv_flat_laws.specs.FaultModes.{mode_of};
ghost use Rattle.smv_evaluation.specs.SymbolTests.{has_symbol, HasVariable};
ghost use Rattle.smv_evaluation.specs.EvaluableModels.{IsEvaluable, IsLawful};
ghost use Rattle.smv_language.specs.NumberedValues.{told_trace};

use base_values::{MomentList, Valuation, Value};
use smv_language::model::Fault;
use smv_types::Typed;

/// Whether the mode of a fault stands at some moment. Takes no memory.
pub fn has_failed(t: &Typed, fault: &Fault, trace: &MomentList) -> bool
    requires model { IsEvaluable (model_tree t.now.model) }
    requires lawful { Each (IsLawful (model_tree t.now.model)) trace.now }
    requires variable { fault.now.variable < length t.now.model.variables }
    requires symbol { fault.now.symbol < length t.now.model.symbols }
    ensures { result ≡ stands_in_some (model_tree t.now.model) (mode_of fault.now) (told_trace t.now.model.symbols trace.now) }
{
    stands_in_some(trace.as_slice(), fault.variable as usize, fault.symbol)
}

/// Whether a variable has a symbol at some of these moments.
fn stands_in_some(moments: &[Valuation], variable: usize, symbol: u32) -> bool
    requires { All (HasVariable variable) moments.now }
    ensures { result ≡ list_any (has_symbol variable symbol) moments.now }
{
    moments.iter().any(|v| stands(v, variable, symbol))
}

/// Whether a variable has a symbol.
fn stands(v: &Valuation, variable: usize, symbol: u32) -> bool
    requires { variable < length v.now }
    ensures { result ≡ has_symbol variable symbol v.now }
{
    match v.get(variable) {
        Value::Sym(number) => number == symbol,
        _ => false,
    }
}
