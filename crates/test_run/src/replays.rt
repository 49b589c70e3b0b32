//! Rows of replays, of top events and of words that are refused, over desks in memory.
use crate::desks::{DARK, GLITCH, LAMP, PULSE, ends, joined};
use base_values::OutOfMemory;
use std::alloc::Global;

const PASSED: &str = "seen & !pulse";

const QUIET: &[u8] =
    b"moment 0\npulse = FALSE\nseen = FALSE\npulse#nominal = FALSE\nP#mode = P#nominal\n";

const RAISED: &[u8] =
    b"moment 1\npulse = TRUE\nseen = FALSE\npulse#nominal = FALSE\nP#mode = P#glitch\n";

const SEEN: &[u8] =
    b"moment 2\npulse = FALSE\nseen = TRUE\npulse#nominal = FALSE\nP#mode = P#nominal\n";

/// The file of a trace in three pieces.
type TracePieces = [&'static [u8]; 3];

static REACHING: [TracePieces; 2] = [
    [QUIET, RAISED, SEEN],
    [
        QUIET,
        b"moment 1\npulse = TRUE\nP#mode = P#glitch\npulse#nominal = FALSE\nseen = FALSE\n\n",
        SEEN,
    ],
];

/// Traces that are not accepted, or whose texts are refused, and what is said.
static REFUSED: [(TracePieces, &[u8]); 10] = [
    (
        [
            QUIET,
            b"moment 1\npulse = FALSE\nseen = FALSE\npulse#nominal = FALSE\nP#mode = P#glitch\n",
            SEEN,
        ],
        b"not accepted moment 1 step\n",
    ),
    (
        [
            b"moment 0\npulse = TRUE\nseen = FALSE\npulse#nominal = FALSE\nP#mode = P#glitch\n",
            RAISED,
            SEEN,
        ],
        b"not accepted moment 0 first\n",
    ),
    ([QUIET, RAISED, b""], b"not accepted moment 1 top\n"),
    (
        [
            b"moment 0\npulse = FALSE\nseen = 2\npulse#nominal = FALSE\nP#mode = P#nominal\n",
            RAISED,
            SEEN,
        ],
        b"refused trace read 3 at 3\n",
    ),
    (
        [
            QUIET,
            RAISED,
            b"moment 2\npulse = FALSE\nseen = TRUE\npulse#nominal = FALSE\n",
        ],
        b"refused trace read 4 at 2\n",
    ),
    ([b"", b"", b""], b"refused trace read 1 at 1\n"),
    (
        [b"moment 0\n", b"seen = FALSE\n", b""],
        b"refused trace read 4 at 0\n",
    ),
    (
        [
            b"moment 0\npulse = FALSE\nseen = FALSE\nseen = FALSE\n",
            b"pulse#nominal = FALSE\nP#mode = P#nominal\n",
            b"",
        ],
        b"refused trace read 5 at 4\n",
    ),
    ([b"moment 1\n", b"", b""], b"refused trace read 1 at 1\n"),
    (
        [b"moment 0\n", b"sean = FALSE\n", b""],
        b"refused trace read 2 at 2\n",
    ),
];

static REPLAY: [&str; 9] = [
    "replay", "--model", "m", "--faults", "f", "--trace", "t", "--top", PASSED,
];

/// Whether the replay of a trace ends with this number and says this text.
fn is_replayed(
    alloc: Global,
    pieces: &TracePieces,
    number: i32,
    said: &[u8],
) -> Result<bool, OutOfMemory> {
    let trace = joined(alloc, pieces)?;
    let given = [
        ("m", Some(PULSE)),
        ("f", Some(GLITCH)),
        ("t", Some(trace.as_slice())),
    ];
    ends(alloc, &given, &REPLAY, number, said)
}

const REACHES: &[u8] = b"reaches\nfailed P.glitch\n";

#[test]
fn a_trace_of_the_pulse_is_replayed_or_refused(rt: HostRuntime) -> Result<(), OutOfMemory> {
    for (i, trace) in REACHING.iter().enumerate() {
        assert!(rt; is_replayed(rt.alloc(), trace, 0, REACHES)?, "reaching {i}");
    }
    for (i, (trace, said)) in REFUSED.iter().enumerate() {
        assert!(rt; is_replayed(rt.alloc(), trace, 6, said)?, "refused {i}");
    }
    Ok(())
}

/// Whether a run over the lamp and an empty trace ends with this number and says this text.
fn lamp_ends(alloc: Global, words: &[&str], number: i32, said: &[u8]) -> Result<bool, OutOfMemory> {
    let given = [
        ("m", Some(LAMP)),
        ("f", Some(DARK)),
        ("t", Some(b"".as_slice())),
    ];
    ends(alloc, &given, words, number, said)
}

/// Top events that are refused for the lamp, and the line of each.
static TOPS: [(&str, &[u8]); 4] = [
    ("on & 3", b"refused top type 2 at 0\n"),
    ("next(on)", b"refused top flat 12 at 0\n"),
    ("on &", b"refused top parse 2 at 4\n"),
    ("Lamp#mode = Lamp#dark", b"refused top flat 8 at 0\n"),
];

fn top_is_refused(alloc: Global, top: &str, said: &[u8]) -> Result<bool, OutOfMemory> {
    let words = [
        "replay", "--model", "m", "--faults", "f", "--trace", "t", "--top", top,
    ];
    lamp_ends(alloc, &words, 5, said)
}

/// Words that are refused, and the line of each.
static WORDS: [(&[&str], &[u8]); 7] = [
    (&[], b"refused words 1 at 0\n"),
    (&["extend", "--model"], b"refused words 6 at 2\n"),
    (
        &["extend", "--model", "m", "--model", "n"],
        b"refused words 4 at 4\n",
    ),
    (
        &["extend", "--model", "m", "--faults", "f"],
        b"refused words 5 at 3\n",
    ),
    (
        &["extend", "--model", "a", "--faults", "b", "--extended", "a"],
        b"refused words 8 at 7\n",
    ),
    (&["fmea", "--size", "3"], b"refused words 7 at 3\n"),
    (&["weave"], b"refused words 2 at 1\n"),
];

#[test]
fn a_top_event_or_words_are_refused(rt: HostRuntime) -> Result<(), OutOfMemory> {
    for (top, said) in &TOPS {
        assert!(rt; top_is_refused(rt.alloc(), top, said)?, "top {top}");
    }
    for (i, (words, said)) in WORDS.iter().enumerate() {
        assert!(rt; lamp_ends(rt.alloc(), words, 2, said)?, "row {i}");
    }
    Ok(())
}
