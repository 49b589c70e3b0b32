//! Rows of certificates that are judged, over desks in memory.
use crate::desks::{DARK, LAMP, TINY, ends, joined, written};
use base_values::OutOfMemory;
use std::alloc::Global;

static CHECK: [&str; 9] = [
    "check", "--model", "m", "--faults", "f", "--top", "!on", "--cert", "c",
];

/// Whether the check of these bytes against the lamp ends with this number and says this text.
fn checks(alloc: Global, cert: &[u8], number: i32, said: &[u8]) -> Result<bool, OutOfMemory> {
    let given = [("m", Some(LAMP)), ("f", Some(DARK)), ("c", Some(cert))];
    ends(alloc, &given, &CHECK, number, said)
}

/// The certificate that an analysis of the lamp writes, for at most so many faults.
fn certificate(alloc: Global, size: &str) -> Result<Vec<u8>, OutOfMemory> {
    let words = [
        "analyse",
        "--model",
        "m",
        "--faults",
        "f",
        "--top",
        "!on",
        "--depth",
        "4",
        "--extended",
        "e",
        "--cert",
        "k",
        "--size",
        size,
    ];
    let given = [
        ("m", Some(LAMP)),
        ("f", Some(DARK)),
        ("c", Some(b"".as_slice())),
    ];
    written(alloc, &given, &words, "k")
}

/// The lines of a certificate that the one variable of a model is never TRUE.
const HEAD: &[u8] = b"xsap-certificate 1\n";

const BITS: &[u8] = b"bits 1 faults 0\n";

const CLAUSES: &[u8] = b"sets 0\ninvariant 1\nclause -2\nfirst 1\n";

const FIRST: &[u8] = b"step -2 : 1 6 4\n";

const NEXT: &[u8] = b"next 1\nstep -3 : 6 4 7\nbad 1\n";

const BAD: &[u8] = b"step : 2 3\n";

const END: &[u8] = b"end\n";

/// The pieces of a certificate, and how a check of it ends: its number, and what it says.
struct JudgedCertificate {
    pieces: [&'static [u8]; 7],
    number: i32,
    said: &'static [u8],
}

static JUDGED: [JudgedCertificate; 10] = [
    JudgedCertificate {
        pieces: [HEAD, BITS, CLAUSES, FIRST, NEXT, BAD, END],
        number: 0,
        said: b"accepted\n",
    },
    JudgedCertificate {
        pieces: [
            b"xsap-certificate 2\n",
            b"bits 1 faults 0 size 0\n",
            CLAUSES,
            FIRST,
            NEXT,
            BAD,
            END,
        ],
        number: 0,
        said: b"accepted\n",
    },
    JudgedCertificate {
        pieces: [HEAD, BITS, CLAUSES, b"step -2 : 6 4\n", NEXT, BAD, END],
        number: 6,
        said: b"not accepted line 7 rule 10\n",
    },
    JudgedCertificate {
        pieces: [
            HEAD,
            BITS,
            CLAUSES,
            FIRST,
            b"next 1\nstep -3 : 6 7 4\nbad 1\n",
            BAD,
            END,
        ],
        number: 0,
        said: b"accepted\n",
    },
    JudgedCertificate {
        pieces: [
            HEAD,
            BITS,
            b"sets 0\ninvariant 0\nfirst 1\n",
            FIRST,
            NEXT,
            BAD,
            END,
        ],
        number: 6,
        said: b"not accepted line 8 rule 9\n",
    },
    JudgedCertificate {
        pieces: [HEAD, BITS, CLAUSES, FIRST, NEXT, b"ste", b""],
        number: 6,
        said: b"refused cert read 1 at 11\n",
    },
    JudgedCertificate {
        pieces: [HEAD, BITS, CLAUSES, FIRST, NEXT, BAD, b""],
        number: 6,
        said: b"refused cert read 2 at 12\n",
    },
    JudgedCertificate {
        pieces: [HEAD, BITS, CLAUSES, FIRST, NEXT, b"step : 3\n", END],
        number: 6,
        said: b"not accepted line 11 rule 10\n",
    },
    JudgedCertificate {
        pieces: [HEAD, BITS, CLAUSES, FIRST, NEXT, b"step 2 : 2\n", END],
        number: 6,
        said: b"not accepted line 12 rule 11\n",
    },
    JudgedCertificate {
        pieces: [HEAD, b"bits 2 faults 0\n", CLAUSES, FIRST, NEXT, BAD, END],
        number: 6,
        said: b"not accepted line 2 rule 1\n",
    },
];

static CHECK_TINY: [&str; 9] = [
    "check", "--model", "m", "--faults", "f", "--top", "x", "--cert", "c",
];

/// Whether the check ends as its row says.
fn is_judged(alloc: Global, row: &JudgedCertificate) -> Result<bool, OutOfMemory> {
    let bytes = joined(alloc, &row.pieces)?;
    let given = [
        ("m", Some(TINY)),
        ("f", Some(b"".as_slice())),
        ("c", Some(bytes.as_slice())),
    ];
    ends(alloc, &given, &CHECK_TINY, row.number, row.said)
}

#[test]
fn each_line_of_a_certificate_is_judged(rt: HostRuntime) -> Result<(), OutOfMemory> {
    for (i, row) in JUDGED.iter().enumerate() {
        assert!(rt; is_judged(rt.alloc(), row)?, "row {i}");
    }
    Ok(())
}

/// At most so many faults, and what the check of the certificate for them says.
static WRITTEN: [(&str, &[u8]); 2] = [("1", b"accepted\n"), ("0", b"accepted\nsize 0\n")];

fn is_accepted(alloc: Global, size: &str, said: &[u8]) -> Result<bool, OutOfMemory> {
    let cert = certificate(alloc, size)?;
    checks(alloc, &cert, 0, said)
}

/// Bytes that are no certificate of the lamp, and what the check of them says.
static REFUSED: [(&[u8], &[u8]); 3] = [
    (b"", b"refused cert read 2 at 1\n"),
    (b"set 1\n", b"refused cert read 1 at 1\n"),
    (
        b"xsap-certificate 1\nbits 1 faults 9\nsets 0\ninvariant 0\nfirst 0\nnext 0\nbad 0\nend\n",
        b"not accepted line 2 rule 1\n",
    ),
];

static CHECK_ABSENT: [&str; 9] = [
    "check", "--model", "m", "--faults", "f", "--top", "!on", "--cert", "z",
];

fn is_absent(alloc: Global) -> Result<bool, OutOfMemory> {
    let given = [
        ("m", Some(LAMP)),
        ("f", Some(DARK)),
        ("c", Some(b"".as_slice())),
    ];
    ends(
        alloc,
        &given,
        &CHECK_ABSENT,
        6,
        b"refused cert absent 1 at 0\n",
    )
}

#[test]
fn certificates_are_judged(rt: HostRuntime) -> Result<(), OutOfMemory> {
    for (size, said) in &WRITTEN {
        assert!(rt; is_accepted(rt.alloc(), size, said)?, "size {size}");
    }
    for (i, (cert, said)) in REFUSED.iter().enumerate() {
        assert!(rt; checks(rt.alloc(), cert, 6, said)?, "row {i}");
    }
    assert!(rt; is_absent(rt.alloc())?);
    Ok(())
}
