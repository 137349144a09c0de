//! Memory that is refused.
use crate::exports::file;
use crate::running::{EMPTY, joined};
use cid::Sha256;
use console::{CommandFault, NO_MEMORY, WriteFault};
use export_commands::{ExportCommand, Values, export_text};
use refusing::Refusing;
use repository_commands::{TextFault, verify_text};
use std::alloc::Global;
use tree_command::{Keys, TreeFault, tree_text};

/// How a command ended for which a request for memory may have been refused.
#[derive(Clone, Copy, PartialEq, Eq)]
enum Ended {
    /// It wrote what it should.
    Done,
    /// It ended for want of memory, and wrote nothing.
    NoMemory,
    Wrong,
}

/// What is done while memory is refused.
#[derive(Clone, Copy)]
enum Work<'a> {
    /// The tree of this listing, and what it writes.
    Tree(&'a [u8], &'a [u8]),
    /// A proof of two blocks.
    Verify,
    /// What a command tells of this file, which is to write so many bytes.
    Export(ExportCommand, &'a [u8], usize),
}

/// How the tree of a listing ends in this memory, which is to write this.
fn tree_end(alloc: Global, heap: &Refusing<Global>, input: &[u8], wanted: &[u8]) -> Ended {
    let mut out = Vec::new(alloc);
    match tree_text::<Sha256, 2, _, _, _>(Keys::Any, heap, &mut &input[..], &mut out) {
        Ok(()) if out.as_slice() == wanted => Ended::Done,
        Err(CommandFault::NoText(TreeFault::NoMemory)) if out.is_empty() => Ended::NoMemory,
        _ => Ended::Wrong,
    }
}

/// How the proof ends in this memory.
fn verify_end(alloc: Global, heap: &Refusing<Global>) -> Ended {
    let mut nodes: &[u8] = b"a0\na2616580616cf6";
    let mut out = Vec::new(alloc);
    match verify_text::<Sha256, _, _, _>(heap, EMPTY.as_bytes(), b"a/b", &mut nodes, &mut out) {
        Ok(()) => Ended::Done,
        Err(CommandFault::NoText(TextFault::NoMemory)) if out.is_empty() => Ended::NoMemory,
        Err(_) => Ended::Wrong,
    }
}

/// How a command on a file ends in this memory, which is to write so many bytes.
fn export_end(
    alloc: Global,
    heap: &Refusing<Global>,
    command: ExportCommand,
    file: &[u8],
    wanted: usize,
) -> Ended {
    let mut out = Vec::new(alloc);
    match export_text::<Sha256, _, _, _>(command, heap, &mut &file[..], &mut out) {
        Ok(()) if out.len() == wanted => Ended::Done,
        Err(CommandFault::NoText(fault)) if fault.status() == NO_MEMORY && out.is_empty() => {
            Ended::NoMemory
        }
        // JSON is made while it is written.
        Err(CommandFault::Unwritten(WriteFault::NoMemory)) if out.len() < wanted => Ended::NoMemory,
        _ => Ended::Wrong,
    }
}

/// How the work ends in this memory.
fn work_end(alloc: Global, heap: &Refusing<Global>, work: Work<'_>) -> Ended {
    match work {
        Work::Tree(input, wanted) => tree_end(alloc, heap, input, wanted),
        Work::Verify => verify_end(alloc, heap),
        Work::Export(command, file, wanted) => export_end(alloc, heap, command, file, wanted),
    }
}

/// How many of its requests for memory the work was refused, one in turn, before it was done; or the number of the request
/// at which it went wrong. Each time all memory is given back.
fn refusals(alloc: Global, work: Work<'_>) -> Result<u64, u64> {
    let heap = Refusing::new(alloc);
    for number in 1..1000u64 {
        heap.refuse(number);
        let ended = work_end(alloc, &heap, work);
        if ended == Ended::Wrong || heap.live() != 0 {
            return Err(number);
        }
        if ended == Ended::Done {
            return Ok(number - 1);
        }
    }
    Err(1000)
}

/// What the tree of this listing writes where no memory is refused.
fn tree_out(alloc: Global, input: &[u8]) -> Option<Vec<u8>> {
    let mut out = Vec::new(alloc);
    match tree_text::<Sha256, 2, _, _, _>(Keys::Any, alloc, &mut &input[..], &mut out) {
        Ok(()) => Some(out),
        Err(_) => None,
    }
}

/// Whether so many requests and more were refused.
fn is_more(refusals: Result<u64, u64>, least: u64) -> bool {
    match refusals {
        Ok(number) => number > least,
        Err(_) => false,
    }
}

#[test]
fn each_request_refused(rt: HostRuntime) {
    let parts = ["a/b ", "E", "\nb/c ", "E", "\na/d ", "E", "\n"];
    let input = joined(rt.alloc(), &parts).expect(&rt, "a listing");
    let wanted = tree_out(rt.alloc(), &input).expect(&rt, "a tree");
    let refusals = refusals(rt.alloc(), Work::Tree(&input, &wanted));
    assert!(rt; is_more(refusals, 10), "{refusals:?}");
}

#[test]
fn each_request_of_verify_refused(rt: HostRuntime) {
    let refusals = refusals(rt.alloc(), Work::Verify);
    assert!(rt; is_more(refusals, 4), "{refusals:?}");
}

#[test]
fn each_request_of_an_export_refused(rt: HostRuntime) {
    let file = file(&rt, rt.alloc());
    let summary = refusals(rt.alloc(), Work::Export(ExportCommand::Check, &file, 96));
    assert!(rt; is_more(summary, 4), "{summary:?}");
    let signed = refusals(rt.alloc(), Work::Export(ExportCommand::Commit, &file, 338));
    assert!(rt; is_more(signed, 5), "{signed:?}");
    let asked = ExportCommand::Records(Values::Json);
    let json = refusals(rt.alloc(), Work::Export(asked, &file, 7));
    assert!(rt; is_more(json, 5), "{json:?}");
}
