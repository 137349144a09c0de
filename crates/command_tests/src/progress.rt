//! What is shown of an input that takes long to be read.
use console::{Watched, read_all};
use std::alloc::Global;
use std::io::{self, Read, Write};
use std::sync::atomic::{AtomicU64, Ordering};
use std::time::{Clock, Duration};

/// A clock that goes on by so many milliseconds each time that it is read.
#[derive(Drop)]
struct Ticking {
    step: u64,
    now: AtomicU64,
}

impl Clock for Ticking {
    fn monotonic(&self) -> io::Result<Duration> {
        Ok(Duration::from_millis(self.now.fetch_add(self.step, Ordering::SeqCst)))
    }

    fn since_1970(&self) -> io::Result<Duration> {
        self.monotonic()
    }
}

/// What was shown while eight bytes were read, one at a time, by a clock that goes on so at each; and whether these were
/// all bytes.
fn shown(alloc: Global, step: u64, shows: bool) -> (Vec<u8>, bool) {
    let mut err = Vec::new(alloc);
    let bytes: &[u8] = b"12345678";
    let clock = Ticking {
        step,
        now: AtomicU64::new(0),
    };
    let input = Single { left: bytes };
    let target = if shows { Some(&mut err) } else { None };
    let mut watched = Watched::new(input, target, clock);
    let is_whole = match read_all(alloc, &mut watched) {
        Ok(read) => read.as_slice() == bytes,
        Err(_) => false,
    };
    drop(watched);
    (err, is_whole)
}

/// Gives these bytes, one at a time.
#[derive(Drop)]
struct Single<'a> {
    left: &'a [u8],
}

impl Read for Single<'_> {
    fn read(&mut self, buf: &mut [u8]) -> io::Result<usize> {
        let most = buf.len().min(1);
        self.left.read(&mut buf[..most])
    }
}

#[test]
fn nothing_is_shown_within_a_second(rt: HostRuntime) {
    let (told, is_whole) = shown(rt.alloc(), 100, true);
    assert!(rt; told.is_empty() && is_whole);
}

#[test]
fn progress_is_shown_and_taken_away(rt: HostRuntime) {
    let (told, is_whole) = shown(rt.alloc(), 150, true);
    let wanted: &[u8] = b"\r7 bytes read\r                               \r";
    assert!(rt; told.as_slice() == wanted && is_whole);
}

#[test]
fn progress_is_shown_five_times_a_second(rt: HostRuntime) {
    let (told, _) = shown(rt.alloc(), 199, true);
    let wanted: &[u8] = b"\r6 bytes read\r8 bytes read\r                               \r";
    assert!(rt; told.as_slice() == wanted, "{told:?}");
}

#[test]
fn nothing_is_shown_where_nobody_looks(rt: HostRuntime) {
    let (told, is_whole) = shown(rt.alloc(), 5000, false);
    assert!(rt; told.is_empty() && is_whole);
}
