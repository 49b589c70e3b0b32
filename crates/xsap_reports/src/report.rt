//! A report as its reader sees it.
/// The report of an analysis. Its names and values lie in the text that it was read from.
#[derive(Drop)]
pub struct Report<'a> {
    /// The names of the faults. Fault i stands at place i - 1.
    pub faults: Vec<&'a [u8]>,
    /// The sets, each with its faults' numbers, which rise from 1 on.
    pub sets: Vec<Vec<u32>>,
    /// A trace for each set, in the same order.
    pub traces: Vec<ReportTrace<'a>>,
    /// Whether the model has a first moment, and so a trace at all.
    pub has_first: bool,
    pub ending: ReportEnding,
    /// The most faults of a set, where fewer were asked for than there are.
    pub size: Option<u32>,
}

/// How an analysis ended.
#[derive(Clone, Copy, Debug, PartialEq, Eq)]
pub enum ReportEnding {
    /// No other minimal set exists, in traces of any length.
    Complete,
    /// None exists in the traces of at most so many steps, of a model with so many bits of state.
    Bounded { steps: u32, bits: u32 },
}

/// The moments of a trace, from the first.
#[derive(Drop)]
pub struct ReportTrace<'a> {
    pub moments: Vec<ReportMoment<'a>>,
}

/// A moment: the value of each variable, in the model's order.
#[derive(Drop)]
pub struct ReportMoment<'a> {
    pub lines: Vec<Line<'a>>,
}

/// A variable and its value.
#[derive(Clone, Copy, Debug)]
pub struct Line<'a> {
    pub name: &'a [u8],
    pub value: &'a [u8],
}
