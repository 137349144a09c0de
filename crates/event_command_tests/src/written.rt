//! Messages that are written.
use crate::message::{MESSAGE, SYNC};
use crate::running::{ends, has_none, is_untold, is_written, words, words_of_state};
use event_commands::{EventCommand, EventWords, Subject};
use record_forms::Form;
use std::test::Fail;

#[test]
fn a_message_is_that_of_another_program(rt: HostRuntime) -> Result<(), Fail> {
    let alloc = rt.alloc();
    let message = hex::decode(alloc, MESSAGE)?;
    assert!(rt; is_written(alloc, Subject::Batch, words(), b"\nput a/b a0", &message));
    let json = EventCommand::Write {
        subject: Subject::Batch,
        words: words(),
        form: Form::Json,
    };
    assert!(rt; ends(alloc, json, b"\ncreate a/b {}\n", 0, &message, ""));
    Ok(())
}

#[test]
fn a_message_of_a_state_is_that_of_another_program(rt: HostRuntime) -> Result<(), Fail> {
    let alloc = rt.alloc();
    let message = hex::decode(alloc, SYNC)?;
    let beside = words_of_state();
    assert!(rt; is_written(alloc, Subject::State, beside, b"a/b a0", &message));
    assert!(rt; is_written(alloc, Subject::State, beside, b"\nput a/b a0\n", &message));
    assert!(rt;
        is_written(
            alloc,
            Subject::State,
            beside,
            b"a/c a0\n\nput a/b a0\ndelete a/c\n",
            &message
        )
    );
    assert!(rt; has_none(alloc, Subject::State, beside, b"", "msthost: NoBatch\n"));
    assert!(rt;
        has_none(
            alloc,
            Subject::State,
            beside,
            b"a/b",
            "msthost: line 1: BadLine\n"
        )
    );
    Ok(())
}

#[test]
fn a_batch_comes_behind_the_records(rt: HostRuntime) {
    let alloc = rt.alloc();
    let first = EventWords {
        rev: "2222222222222",
        ..words()
    };
    let lines = b"a/b a0\n\nput a/c a0".as_slice();
    assert!(rt; is_untold(alloc, first, lines, "msthost: RevOrder\n"));
    assert!(rt; has_none(alloc, Subject::State, first, lines, "msthost: RevOrder\n"));
    assert!(rt; is_untold(alloc, first, b"a/b a0\n\n", "msthost: NoBatch\n"));
    let noon = EventWords {
        time: "noon",
        ..first
    };
    assert!(rt; is_untold(alloc, noon, b"\nput a/b a0", "msthost: BadTime\n"));
    assert!(rt; has_none(alloc, Subject::State, noon, b"a/b a0", "msthost: BadTime\n"));
}

#[test]
fn a_batch_that_is_not_told(rt: HostRuntime) {
    let alloc = rt.alloc();
    assert!(rt; is_untold(alloc, words(), b"a/b a0", "msthost: NoBatch\n"));
    assert!(rt; is_untold(alloc, words(), b"a/b a0\n\n", "msthost: NoBatch\n"));
    assert!(rt; is_untold(alloc, words(), b"\nput a/b", "msthost: line 2: BadLine\n"));
    assert!(rt;
        is_untold(
            alloc,
            words(),
            b"\nupdate a/b a0",
            "msthost: line 2: NoSuchKey\n"
        )
    );
}

#[test]
fn words_that_are_none(rt: HostRuntime) {
    let alloc = rt.alloc();
    let lines = b"\nput a/b a0".as_slice();
    let did = EventWords {
        did: "a",
        ..words()
    };
    assert!(rt; is_untold(alloc, did, lines, "msthost: BadDid\n"));
    let rev = EventWords {
        rev: "1",
        ..words()
    };
    assert!(rt; is_untold(alloc, rev, lines, "msthost: BadRev\n"));
    let sig = EventWords {
        sig: "0",
        ..words()
    };
    assert!(rt; is_untold(alloc, sig, lines, "msthost: BadSig\n"));
    let seq = EventWords {
        seq: u64::MAX,
        ..words()
    };
    assert!(rt; is_untold(alloc, seq, lines, "msthost: BadSeq\n"));
    let time = EventWords {
        time: "noon",
        ..words()
    };
    assert!(rt; is_untold(alloc, time, lines, "msthost: BadTime\n"));
    let since = EventWords {
        since: Some("1"),
        ..words()
    };
    assert!(rt; is_untold(alloc, since, lines, "msthost: BadSince\n"));
    let later = EventWords {
        since: Some("3jzfcijpj2z2b"),
        ..words()
    };
    assert!(rt; is_untold(alloc, later, lines, "msthost: RevOrder\n"));
}
