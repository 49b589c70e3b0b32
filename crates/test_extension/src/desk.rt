//! What a desk in memory keeps where one of its calls fails.
use base_files::{
    CallKind, DeskFault, Fail, FailList, FileList, MemoryDesk, NamedFile, WriteStop, read_whole,
    say_whole, write_whole,
};
use base_values::OutOfMemory;
use std::alloc::Global;
use std::test::Fail as TestFail;

const LAMP: &[u8] = b"MODULE main";

/// One run of the three calls over a desk in memory, and what is found afterwards.
#[derive(Clone, Copy)]
struct Case {
    /// The call that fails; a number of 0 names none.
    fail: Fail,
    /// The name and the limit of what is read.
    name: &'static str,
    limit: u64,
    /// What each of the three calls answers.
    read: Option<DeskFault>,
    write: Result<(), WriteStop>,
    say: Result<(), WriteStop>,
    /// How many bytes the written file then has, if it is there, and how many were said.
    kept: Option<usize>,
    said: usize,
}

/// A run in which no call fails.
const WELL: Case = Case {
    fail: Fail {
        call: CallKind::Read,
        nth: 0,
        kept: 0,
    },
    name: "lamp",
    limit: 11,
    read: None,
    write: Ok(()),
    say: Ok(()),
    kept: Some(70_000),
    said: 70_000,
};

const FAILED: Result<(), WriteStop> = Err(WriteStop::Failed);

const UNREAD: Option<DeskFault> = Some(DeskFault::Failed);

// 70,000 bytes are two pieces, 65,536 and 4,464, so no third append or saying is asked for.
static CASES: [Case; 13] = [
    WELL,
    Case {
        limit: 10,
        read: Some(DeskFault::TooLong),
        ..WELL
    },
    Case {
        name: "lam",
        read: Some(DeskFault::Absent),
        ..WELL
    },
    Case {
        fail: Fail {
            call: CallKind::Read,
            nth: 1,
            kept: 0,
        },
        read: UNREAD,
        ..WELL
    },
    Case {
        fail: Fail {
            call: CallKind::Read,
            nth: 2,
            kept: 0,
        },
        read: UNREAD,
        ..WELL
    },
    Case {
        fail: Fail {
            call: CallKind::Start,
            nth: 1,
            kept: 5,
        },
        write: FAILED,
        kept: None,
        ..WELL
    },
    Case {
        fail: Fail {
            call: CallKind::Append,
            nth: 1,
            kept: 0,
        },
        write: FAILED,
        kept: Some(0),
        ..WELL
    },
    Case {
        fail: Fail {
            call: CallKind::Append,
            nth: 2,
            kept: 1,
        },
        write: FAILED,
        kept: Some(65_537),
        ..WELL
    },
    Case {
        fail: Fail {
            call: CallKind::Append,
            nth: 2,
            kept: 9_999,
        },
        write: FAILED,
        ..WELL
    },
    Case {
        fail: Fail {
            call: CallKind::Append,
            nth: 3,
            kept: 0,
        },
        ..WELL
    },
    Case {
        fail: Fail {
            call: CallKind::Say,
            nth: 1,
            kept: 3,
        },
        say: FAILED,
        said: 3,
        ..WELL
    },
    Case {
        fail: Fail {
            call: CallKind::Say,
            nth: 2,
            kept: 4,
        },
        say: FAILED,
        said: 65_540,
        ..WELL
    },
    Case {
        fail: Fail {
            call: CallKind::Say,
            nth: 3,
            kept: 0,
        },
        ..WELL
    },
];

fn push_file(
    alloc: Global,
    files: &mut FileList,
    name: &str,
    bytes: &[u8],
) -> Result<(), OutOfMemory> {
    files.push(NamedFile::new(alloc, name, bytes)?)
}

fn desk_with(alloc: Global, fail: Fail) -> Result<MemoryDesk, OutOfMemory> {
    let mut files = FileList::new(alloc);
    push_file(alloc, &mut files, "lamp", LAMP)?;
    push_file(alloc, &mut files, "lamp", b"of two the first counts")?;
    let fails = FailList::from_slice(alloc, &[fail])?;
    Ok(MemoryDesk::new(alloc, files, fails))
}

fn read_as_said(alloc: Global, desk: &mut MemoryDesk, case: &Case) -> bool {
    match read_whole(alloc, desk, case.name, case.limit) {
        Ok(bytes) => case.read.is_none() && bytes.as_slice() == LAMP,
        Err(fault) => case.read == Some(fault),
    }
}

fn length_of(file: Option<&[u8]>) -> Option<usize> {
    match file {
        Some(bytes) => Some(bytes.len()),
        None => None,
    }
}

fn write_as_said(desk: &mut MemoryDesk, text: &[u8], case: &Case) -> bool {
    write_whole(desk, "out", text) == case.write
}

fn say_as_said(desk: &mut MemoryDesk, text: &[u8], case: &Case) -> bool {
    say_whole(desk, text) == case.say
}

/// Whether the file and the said text are then as long as the case says.
fn keeps(desk: &MemoryDesk, case: &Case) -> bool {
    length_of(desk.file("out")) == case.kept && desk.said().len() == case.said
}

/// Whether the run answers and leaves what the case says. All three calls are made, whatever they answer.
fn holds(alloc: Global, case: &Case) -> Result<bool, OutOfMemory> {
    let text = vec![in alloc; b'x'; 70_000]?;
    let mut desk = desk_with(alloc, case.fail)?;
    let read = read_as_said(alloc, &mut desk, case);
    let write = write_as_said(&mut desk, &text, case);
    let say = say_as_said(&mut desk, &text, case);
    Ok(read && write && say && keeps(&desk, case))
}

#[test]
fn each_failing_call_leaves_what_it_kept(rt: HostRuntime) -> Result<(), TestFail> {
    for (i, case) in CASES.iter().enumerate() {
        assert!(rt; holds(rt.alloc(), case)?, "case {i}");
    }
    Ok(())
}
