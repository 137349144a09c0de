//! The run of the command to the exit status.
use crate::blocks::SLICE;
use crate::made_up::MadeUp;
use crate::told::A0;
use cid::Sha256;
use console::{OpenFault, SaveFault, WriteFault};
use difference_commands::{ChangesWords, Values, run_on_files};
use std::alloc::Global;
use std::cell::Cell;
use std::io::{self, ErrorKind, Write};
use std::test::Fail;

/// The words for the two files, with a file for blocks or without.
fn words<'a>(blocks: Option<&'a str>) -> ChangesWords<'a> {
    ChangesWords {
        old: "old",
        new: "new",
        form: None,
        values: Values::Cids,
        blocks,
    }
}

/// A key beside another one, and only the file `blocks.car` may be saved, with these bytes.
fn one_more<'a>(slice: &'a [u8]) -> MadeUp<'a> {
    MadeUp {
        old: b"a/b a0",
        new: b"a/b a0\na/c a0",
        name: "blocks.car",
        bytes: slice,
        refusal: None,
        saves: Cell::new(0),
    }
}

/// Whether the command ends so: with this status, this on both streams, and a file to be saved so many times.
fn ends(
    alloc: Global,
    words: ChangesWords<'_>,
    files: &MadeUp<'_>,
    status: u8,
    out: &str,
    err: &str,
    saves: u32,
) -> bool {
    let mut text = Vec::new(alloc);
    let mut told = Vec::new(alloc);
    let ended = run_on_files::<Sha256, MadeUp, Vec<u8>, Vec<u8>>(
        words, alloc, files, &mut text, &mut told,
    );
    ended == status
        && text.as_slice() == out.as_bytes()
        && told.as_slice() == err.as_bytes()
        && files.saves.get() == saves
}

#[test]
fn lines_beside_a_file_of_blocks(rt: HostRuntime) -> Result<(), Fail> {
    let alloc = rt.alloc();
    let slice = hex::decode(alloc, SLICE)?;
    let files = one_more(&slice);
    let lines = format!(in alloc; "change a/c - {A0}\n")?;
    assert!(rt; ends(alloc, words(Some("blocks.car")), &files, 0, &lines, "", 1));
    assert!(rt; ends(alloc, words(None), &files, 0, &lines, "", 1));
    Ok(())
}

/// Whether a file of blocks that isn't saved is told so, and nothing is written.
fn is_told(alloc: Global, refusal: SaveFault, status: u8, told: &str) -> bool {
    let files = MadeUp {
        refusal: Some(refusal),
        ..one_more(b"")
    };
    ends(
        alloc,
        words(Some("blocks.car")),
        &files,
        status,
        "",
        told,
        1,
    )
}

#[test]
fn files_that_are_not_saved(rt: HostRuntime) {
    let alloc = rt.alloc();
    let unopened = SaveFault::Unopened;
    let unwritten = SaveFault::Unwritten;
    assert!(rt;
        is_told(
            alloc,
            unopened(OpenFault::NotFound),
            4,
            "msthost: blocks.car: not found\n"
        )
    );
    assert!(rt;
        is_told(
            alloc,
            unopened(OpenFault::Denied),
            4,
            "msthost: blocks.car: permission denied\n"
        )
    );
    assert!(rt;
        is_told(
            alloc,
            unopened(OpenFault::NoMemory),
            3,
            "msthost: blocks.car: no memory\n"
        )
    );
    assert!(rt;
        is_told(
            alloc,
            unwritten(WriteFault::Failed),
            4,
            "msthost: blocks.car: write failed\n"
        )
    );
    assert!(rt;
        is_told(
            alloc,
            unwritten(WriteFault::NoMemory),
            3,
            "msthost: blocks.car: no memory\n"
        )
    );
}

#[test]
fn at_a_fault_nothing_is_saved(rt: HostRuntime) {
    let alloc = rt.alloc();
    let files = MadeUp {
        new: b"a/b",
        ..one_more(b"")
    };
    let blocks = Some("blocks.car");
    assert!(rt;
        ends(
            alloc,
            words(blocks),
            &files,
            1,
            "",
            "msthost: new: line 1: BadLine\n",
            0
        )
    );
    let absent = ChangesWords {
        new: "nowhere",
        ..words(blocks)
    };
    assert!(rt;
        ends(
            alloc,
            absent,
            &files,
            4,
            "",
            "msthost: nowhere: not found\n",
            0
        )
    );
    let formless = ChangesWords {
        form: Some("text"),
        ..words(blocks)
    };
    assert!(rt; ends(alloc, formless, &files, 1, "", "msthost: BadForm\n", 0));
}

/// A writer that takes nothing.
#[derive(Drop)]
struct Closed;

impl Write for Closed {
    fn write(&mut self, _buf: &[u8]) -> io::Result<usize> {
        Err(io::Error::from(ErrorKind::BrokenPipe))
    }

    fn flush(&mut self) -> io::Result<()> {
        Ok(())
    }
}

#[test]
fn a_file_of_blocks_is_saved_before_lines_are_written(rt: HostRuntime) -> Result<(), Fail> {
    let alloc = rt.alloc();
    let slice = hex::decode(alloc, SLICE)?;
    let files = one_more(&slice);
    let mut told = Vec::new(alloc);
    let status = run_on_files::<Sha256, MadeUp, Closed, Vec<u8>>(
        words(Some("blocks.car")),
        alloc,
        &files,
        &mut Closed,
        &mut told,
    );
    assert!(rt; status == 4 && files.saves.get() == 1);
    assert!(rt; told.as_slice() == b"msthost: write failed\n".as_slice());
    Ok(())
}
