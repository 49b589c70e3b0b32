//! What words may mean. Files are names; a top event is a text of its own, and lists of events and of causes are files.
/// The files of `extend`: the model, the instructions, and the extension that is written.
#[derive(Clone, Copy, Debug, PartialEq, Eq)]
pub struct Extend<'a> {
    pub model: &'a str,
    pub faults: &'a str,
    pub extended: &'a str,
}

/// The files of `replay`: the model, the instructions and the trace; and the word of the top event.
#[derive(Clone, Copy, Debug, PartialEq, Eq)]
pub struct Replay<'a> {
    pub model: &'a str,
    pub faults: &'a str,
    pub trace: &'a str,
    pub top: &'a str,
}

/// The files and the words of `analyse`: the model, the instructions, the extension and the certificate that are
/// written; the top event, in how many steps it is looked for at most, and by how many faults where a size is given.
#[derive(Clone, Copy, Debug, PartialEq, Eq)]
pub struct Analyse<'a> {
    pub model: &'a str,
    pub faults: &'a str,
    pub top: &'a str,
    pub depth: u32,
    pub extended: &'a str,
    pub cert: &'a str,
    pub size: Option<u32>,
}

/// The files of `check`: the model, the instructions and the certificate; and the word of the top event.
#[derive(Clone, Copy, Debug, PartialEq, Eq)]
pub struct Check<'a> {
    pub model: &'a str,
    pub faults: &'a str,
    pub top: &'a str,
    pub cert: &'a str,
}

/// The files and the words of `fmea`: the model, the instructions and the top events; how many faults a row has at most,
/// and how far the searches go.
#[derive(Clone, Copy, Debug, PartialEq, Eq)]
pub struct Fmea<'a> {
    pub model: &'a str,
    pub faults: &'a str,
    pub tops: &'a str,
    pub size: u32,
    pub depth: u32,
}

/// The words of `make`: the number and the stages of a case, how far the search goes, and the two files that are written.
#[derive(Clone, Copy, Debug, PartialEq, Eq)]
pub struct Make<'a> {
    pub number: u32,
    pub stages: u32,
    pub depth: u32,
    pub model: &'a str,
    pub faults: &'a str,
}

/// The files and the words of `causes`: the model, the instructions, the causes and the certificate that is written; the
/// top event, and how far the search goes.
#[derive(Clone, Copy, Debug, PartialEq, Eq)]
pub struct FindCauses<'a> {
    pub model: &'a str,
    pub faults: &'a str,
    pub causes: &'a str,
    pub top: &'a str,
    pub depth: u32,
    pub cert: &'a str,
}

/// The files of `check-causes`: the model, the instructions, the causes and the certificate; and the top event.
#[derive(Clone, Copy, Debug, PartialEq, Eq)]
pub struct CheckCauses<'a> {
    pub model: &'a str,
    pub faults: &'a str,
    pub causes: &'a str,
    pub top: &'a str,
    pub cert: &'a str,
}

/// The files and the words of `orders`: the model, the instructions and the certificate that is written; the top event,
/// the set, as rising numbers with one space between, and two different numbers of it; and how far the searches go.
#[derive(Clone, Copy, Debug, PartialEq, Eq)]
pub struct FindOrders<'a> {
    pub model: &'a str,
    pub faults: &'a str,
    pub top: &'a str,
    pub set: &'a str,
    pub first: u32,
    pub second: u32,
    pub depth: u32,
    pub cert: &'a str,
}

/// The files and the words of `check-orders`: the model, the instructions and the certificate; the top event, the set and
/// two different numbers of it, and what is claimed of them: `before`, `after`, `together` or `none`.
#[derive(Clone, Copy, Debug, PartialEq, Eq)]
pub struct CheckOrders<'a> {
    pub model: &'a str,
    pub faults: &'a str,
    pub top: &'a str,
    pub set: &'a str,
    pub first: u32,
    pub second: u32,
    pub claim: &'a str,
    pub cert: &'a str,
}

/// The files and the words of `odds`: the model, the instructions, the top event, and how far the search goes.
#[derive(Clone, Copy, Debug, PartialEq, Eq)]
pub struct FindOdds<'a> {
    pub model: &'a str,
    pub faults: &'a str,
    pub top: &'a str,
    pub depth: u32,
}

/// A verb with the values of its options.
#[derive(Clone, Copy, Debug, PartialEq, Eq)]
pub enum Command<'a> {
    /// Extends a model with faults.
    Extend(Extend<'a>),
    /// Judges a trace of the extension.
    Replay(Replay<'a>),
    /// Finds the minimal cut sets of a top event.
    Analyse(Analyse<'a>),
    /// Judges a certificate of an analysis.
    Check(Check<'a>),
    /// Makes a table of fault sets and top events.
    Fmea(Fmea<'a>),
    /// Generates a case from a number, and analyses it.
    Make(Make<'a>),
    /// Finds the minimal cut sets of faults and common causes.
    Causes(FindCauses<'a>),
    /// Judges a certificate of faults and common causes.
    CheckCauses(CheckCauses<'a>),
    /// Finds in which order two faults of a set come wherever exactly the set leads to the top event.
    Orders(FindOrders<'a>),
    /// Judges a certificate of such an order.
    CheckOrders(CheckOrders<'a>),
    /// Finds the minimal cut sets, and bounds their probabilities by the marks of the modes.
    Odds(FindOdds<'a>),
}
