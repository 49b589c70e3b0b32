//! The search of a case for its minimal cut sets, and what is made of what it finds.
//!
//! The main function is [`search`]: the report, how it ended, and for a complete answer the text of a certificate.
ghost use Rattle.std.specs.Prelude.{IfOk};
ghost use Rattle.verb_loading.specs.LoadedEvents.{IsEvent};
ghost use Rattle.verb_run.specs.Findings.{IsFinding, analysed_case, analysed_size};

use crate::analysis::Analysing;
use base_values::OutOfMemory;
use cert_file::conclusion::Conclusion;
use cut_model_search::{FaultyModel, size_of, told};
use sat_adviser::Panel;
use std::alloc::Global;

/// Searches a case for the minimal cut sets of its top event, and makes what is to be written and said.
pub(crate) fn search(
    alloc: Global,
    asked: &Analysing,
    panel: &mut Panel,
) -> Result<Conclusion, OutOfMemory>
    requires { IsEvent asked.now.word.now asked.now.loaded }
    ensures { IfOk result (IsFinding (analysed_case asked.now) asked.now.word.now asked.now.depth (analysed_size asked.now)) }
{
    let case = &asked.loaded.case;
    let model = FaultyModel::of_case(alloc, case, &asked.loaded.top)?;
    let size = size_of(asked.size, case.limited.faults.len());
    let a = model.analyse(alloc, asked.depth, size, panel)?;
    let cert = model.certificate(alloc, &a, panel)?;
    let report = model.report(alloc, &a)?;
    Ok(Conclusion {
        cert,
        report,
        ending: told(&a.end),
    })
}
