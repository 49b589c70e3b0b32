//! What is printed of a search: its report, and how it ended.
ghost use Rattle.std.specs.Prelude.{◌≡◌, IfOk};
ghost use Rattle.cut_text_laws.specs.Analysis.{told_ending};
ghost use Rattle.cut_report_laws.specs.SearchAnswer.{ending_of};
ghost use Rattle.cut_model_search.specs.Reports.{report_in};

use crate::faulty::FaultyModel;
use base_values::{ByteList, Ending, OutOfMemory};
use cut_report::{Findings, print_analysis};
use cut_search::answer::{Analysis, End};
use std::alloc::Global;

/// How a report tells the ending of a search.
pub fn told(end: &End) -> Ending
    ensures { told_ending result ≡ ending_of end.now }
{
    match end {
        End::Complete(_clauses) => Ending::Complete,
        End::Bounded(steps) => Ending::Bounded(*steps),
    }
}

impl<'a> FaultyModel<'a> {
    /// The report of an analysis of the model.
    pub fn report(&self, alloc: Global, a: &Analysis) -> Result<ByteList, OutOfMemory>
        ensures { IfOk result (λ text. text ≡ report_in self.now a.now) }
    {
        let found = Findings {
            sets: &a.sets,
            traces: &a.traces,
            first: a.first,
            ending: told(&a.end),
            size: a.size,
        };
        let text = print_analysis(alloc, self.plain(), self.listed(), self.bits(), &found)?;
        Ok(text)
    }
}
