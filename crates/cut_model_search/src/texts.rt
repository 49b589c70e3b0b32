//! The texts of traces, as lines.
//!
//! [`texts_of`] prints each trace of an analysis and cuts its text at the line feeds.
ghost use Rattle.std.specs.Prelude.{◌≡◌, map, All, IfOk};
ghost use Rattle.cert_laws.specs.CertificateText.{IsWritableText};
ghost use Rattle.cut_model_search.specs.Texts.{AreLinesIn, text_lines, CanBePrinted};

use base_values::{MomentList, OutOfMemory, first_line};
use cert_text::{LineList, TextList};
use cut_report::print_trace;
use smv_types::Typed;
use std::alloc::Global;

// The lines of a text that end in a line feed.
fn lines(alloc: Global, bytes: &[u8]) -> Result<LineList, OutOfMemory>
    ensures { IfOk result (AreLinesIn bytes.now) }
{
    let mut lines = LineList::new(alloc);
    let mut rest = bytes;
    while let Some((line, after)) = first_line(rest) {
        lines.push(line)?;
        rest = after;
    }
    Ok(lines)
}

// The lines of a trace's text.
fn text_of(alloc: Global, t: &Typed, trace: &MomentList) -> Result<LineList, OutOfMemory>
    requires { CanBePrinted t.now.model trace.now }
    ensures lines { IfOk result (λ text. text ≡ text_lines t.now.model trace.now) }
    ensures writable { IfOk result (λ text. IsWritableText text) }
{
    let text = print_trace(alloc, t, trace)?;
    let list = lines(alloc, text.as_slice())?;
    // Memory keeps the number of lines below 2^63.
    let _count = list.len();
    Ok(list)
}

/// The texts of traces, each as its lines.
pub fn texts_of(alloc: Global, t: &Typed, traces: &[MomentList]) -> Result<TextList, OutOfMemory>
    requires { All (CanBePrinted t.now.model) traces.now }
    ensures lines { IfOk result (λ texts. texts ≡ map (text_lines t.now.model) traces.now) }
    ensures writable { IfOk result (λ texts. All IsWritableText texts) }
{
    let mut texts = TextList::new(alloc);
    for trace in traces {
        texts.push(text_of(alloc, t, trace)?)?;
    }
    Ok(texts)
}
