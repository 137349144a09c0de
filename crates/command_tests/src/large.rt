//! Inputs of more than 64 kilobytes. What comes of them was computed by a program in another language.
use crate::running::{EMPTY, TREE, run};
use cid::{Cid, Sha256};
use std::alloc::{AllocError, Global};
use std::random::RandomSource;
use std::sync::Wait;
use std::thread::Threads;

/// The lines of 800 keys with one record, 68,800 bytes.
fn listing(alloc: Global) -> Result<Vec<u8>, AllocError> {
    let mut text = Vec::new(alloc);
    for number in 0..800u16 {
        let line = format!(in alloc; "app.bsky.feed.post/{number:06} {}\n", EMPTY)?;
        text.extend_from_slice(line.as_bytes())?;
    }
    Ok(text)
}

/// 300 keys, each with a record of its own, a map of 100 bytes whose digits are the key's number; before the first one
/// stands a text, and another before each further one.
fn puts(alloc: Global, first: &str, further: &str) -> Result<Vec<u8>, AllocError> {
    let mut text = Vec::new(alloc);
    for number in 0..300u16 {
        let before = if number == 0 { first } else { further };
        let put = format!(in alloc; "app.bsky.feed.post/{number:06} a161615864{number:0200}")?;
        text.extend_from_slice(before.as_bytes())?;
        text.extend_from_slice(put.as_bytes())?;
    }
    Ok(text)
}

/// The CIDs of what `tree` writes for the listing, and `car` for the puts.
const TREE_OUT: &str = "bafyreidb7rv3dq7wcppjyhvkqe63hmsetiwe3hutnbntrzqeu3os3rzibe";

const CAR_OUT: &str = "bafyreid25sy64jnmihxwg35v55tottxfcgplb3loyudladvb652n5lwppa";

/// How the report of `run` on the puts begins.
const REPORT: &str =
    "1 ok 300\nrepo 0 bafyreihpt5pre3msfy2xfk4rujkwkclyyxvzyl76imz6phaghvfmdyphmm 300 bafyreidy63he7hwxskf3jpeqfm5oebpjhqz4nitfc4hu4x45miyj4wfgwe\n";

/// Whether a command is done on this input of more than 64 kilobytes, and what it writes has this CID.
fn writes<T: Threads + Wait + RandomSource + Sync>(
    rt: &T,
    alloc: Global,
    words: &[&str],
    input: &[u8],
    cid: &str,
) -> bool {
    let ended = run(rt, alloc, words, input);
    let written = Cid::of::<Sha256>(&ended.out).text();
    input.len() > 0x1_0000 && ended.is(0, &ended.out, "") && written.as_slice() == cid.as_bytes()
}

#[test]
fn a_large_listing(rt: HostRuntime) {
    let input = listing(rt.alloc()).expect(&rt, "a listing");
    assert!(rt; writes(&rt, rt.alloc(), &TREE, &input, TREE_OUT));
}

#[test]
fn a_large_repository(rt: HostRuntime) {
    let input = puts(rt.alloc(), "", "\n").expect(&rt, "puts");
    assert!(rt; writes(&rt, rt.alloc(), &["msthost", "car"], &input, CAR_OUT));
}

#[test]
fn a_large_script(rt: HostRuntime) {
    let script = puts(rt.alloc(), "0 0 2222222222222 put ", " ; put ").expect(&rt, "a script");
    let ended = run(&rt, rt.alloc(), &["msthost", "run"], &script);
    assert!(rt; script.len() > 0x1_0000 && ended.begins(REPORT));
}
