//! The limits of what is read, of models and of the command line: each is one constant, which code, definitions, contracts and proofs
//! cite by name. The table of limits in `docs/MANUAL.md` has the same numbers, and `tools/limits` compares the two.

/// The most bytes of a file of a model, of fault instructions, of top events or of causes.
pub const MOST_FILE_BYTES: u64 = 1_048_576;

/// The most bytes of a file of a trace.
pub const MOST_TRACE_BYTES: u64 = 16_777_216;

/// The most bytes of a file of a certificate.
pub const MOST_CERT_BYTES: u64 = 268_435_456;

/// The most bytes of the text of a top event, where it is an argument.
pub const MOST_TOP_BYTES: usize = 65_536;

/// The most top events of a file of them.
pub const MOST_TOPS: usize = 64;

/// The greatest height of the tree of an expression, in nodes.
pub const MOST_HEIGHT: u32 = 1_000;

/// The most parentheses of an expression that are open at once.
pub const MOST_NESTED: usize = 1_000;

/// The most instances of a model, with `main`.
pub const MOST_INSTANCES: usize = 1_000;

/// The most variables of a model.
pub const MOST_VARIABLES: usize = 2_000;

/// The most faults of a model.
pub const MOST_FAULTS: usize = 256;

/// The most modes of a slice.
pub const MOST_MODES: usize = 256;

/// The most faults and causes together.
pub const MOST_EVENTS: usize = 256;

/// The last step after a cause's moment at which its window may end.
pub const LONGEST_WINDOW: u64 = 100;

/// The most bits of a state, with one for each fault.
pub const MOST_BITS: u64 = 4_096;

/// The greatest cost of a model, in units of cost.
pub const MOST_COST: u64 = 50_000;

/// The greatest cost of a top event, in units of cost. It is not above that of a model, at which counts of cost stop.
pub const MOST_TOP_COST: u64 = 50_000;

/// The least value of an expression.
pub const LEAST_NUMBER: i64 = -2_147_483_648;

/// The greatest value of an expression.
pub const GREATEST_NUMBER: i64 = 2_147_483_647;

/// The greatest depth that a search is asked for, in steps of traces.
pub const GREATEST_DEPTH: u32 = 1_000_000_000;

/// The greatest number of a case of the generator.
pub const GREATEST_CASE: u32 = 1_000_000_000;

/// The most stages of a case of the generator.
pub const MOST_STAGES: u32 = 64;

/// A search gives each symbol a number below this. That a model of files within their limits has fewer symbols is not proved.
pub const MOST_SYMBOLS: usize = 2_147_483_648;
