//! The text of certificates: texts that are read are written as the same bytes, and others are refused at their line.
use cert_text::{CertFault, read, write};
use std::alloc::Global;
use std::rt::HostRuntime;
use std::test::Fail;

const TINY: &[u8] =
    b"xsap-certificate 2\nbits 1 faults 0 size 0\nsets 0\ninvariant 1\nclause -2\nfirst 1\nstep -2 : 1 6 4\nnext 1\nstep -3 : 6 4 7\nbad \
        1\nstep : 2 3\nend\n";

const TRACED: &[u8] =
    b"xsap-certificate 2\nbits 10 faults 3 size 2147483647\nsets 3\nset 1 2\ntrace 2\nmoment 0\n\xff x\x00\nset\ntrace 0\nset 3\ntrace 1\n\
        \ninvariant 2\nclause\nclause 9223372036854775807 -1\nfirst 0\nnext 0\nbad 2\nstep :\nstep 1 -2 3 4 5 6 : 1\nend\n";

/// Whether the text is read, and written as the same bytes.
fn is_written_again(alloc: Global, bytes: &[u8]) -> Result<bool, Fail> {
    match read(alloc, bytes) {
        Ok(certificate) => Ok(write(alloc, &certificate)?.as_slice() == bytes),
        Err(_) => Ok(false),
    }
}

#[test]
fn texts_are_read_and_written(rt: HostRuntime) -> Result<(), Fail> {
    let alloc = rt.alloc();
    assert!(rt; is_written_again(alloc, TINY)?);
    assert!(rt; is_written_again(alloc, TRACED)?);
    Ok(())
}

/// Texts that are refused, and the fault of each.
static WRONG: [(&[u8], CertFault); 18] = [
    (b"", CertFault::Ends(1)),
    (b"xsap-certificate 3\n", CertFault::BadLine(1)),
    (b"xsap-certificate 1", CertFault::BadLine(1)),
    (
        b"xsap-certificate 1\nbits 01 faults 0\n",
        CertFault::BadLine(2),
    ),
    (b"xsap-certificate 1\nbits 0 faults 0\n", CertFault::Ends(3)),
    (
        b"xsap-certificate 1\nbits 0 faults 2147483648\n",
        CertFault::BadLine(2),
    ),
    (
        b"xsap-certificate 1\nbits 1 faults 0 size 0\n",
        CertFault::BadLine(2),
    ),
    (
        b"xsap-certificate 2\nbits 1 faults 0 size +1\n",
        CertFault::BadLine(2),
    ),
    (
        b"xsap-certificate 2\nbits 1 faults 0\n",
        CertFault::BadLine(2),
    ),
    (
        b"xsap-certificate 1\nbits 1 faults 0\nsets 9223372036854775807\n",
        CertFault::Ends(4),
    ),
    (
        b"xsap-certificate 1\nbits 1 faults 0\nsets 9223372036854775808\n",
        CertFault::BadLine(3),
    ),
    (
        b"xsap-certificate 1\nbits 1 faults 0\nsets 1 \n",
        CertFault::BadLine(3),
    ),
    (
        b"xsap-certificate 1\nbits 1 faults 0\nsets 0\ninvariant 1\nclause -0\n",
        CertFault::BadLine(5),
    ),
    (
        b"xsap-certificate 1\nbits 1 faults 0\nsets 0\ninvariant 1\nclause  1\n",
        CertFault::BadLine(5),
    ),
    (
        b"xsap-certificate 1\nbits 1 faults 0\nsets 0\ninvariant 1\nclause 1\nfirst 1\nstep 1 2\n",
        CertFault::BadLine(7),
    ),
    (
        b"xsap-certificate 1\nbits 1 faults 0\nsets 0\ninvariant 0\nfirst 0\nnext 0\nbad 0\nend\nend\n",
        CertFault::BadLine(9),
    ),
    (
        b"xsap-certificate 1\nbits 1 faults 0\nsets 0\ninvariant 0\nfirst 0\nnext 0\nbad 0\nend\nx",
        CertFault::BadLine(9),
    ),
    (
        b"xsap-certificate 1\nbits 1 faults 0\nsets 0\ninvariant 0\nfirst 0\nnext 0\nbad 0\n",
        CertFault::Ends(8),
    ),
];

/// The fault of a text that is refused.
fn refusal(alloc: Global, bytes: &[u8]) -> Option<CertFault> {
    read(alloc, bytes).err()
}

#[test]
fn wrong_lines_are_told(rt: HostRuntime) {
    for (i, (bytes, fault)) in WRONG.iter().enumerate() {
        assert_eq!(rt; refusal(rt.alloc(), bytes), Some(*fault), "text {i}");
    }
}
