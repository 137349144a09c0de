//! Running a command over memory.
use cid::Sha256;
use event_commands::{EventCommand, EventWords, Subject, run};
use record_forms::Form;
use std::alloc::Global;

/// The words of the message of another program.
pub(crate) fn words() -> EventWords<'static> {
    EventWords {
        did: "did:web:a.example",
        rev: "3jzfcijpj2z2a",
        since: None,
        seq: 1,
        time: "2026-11-30T12:00:00Z",
        sig: "00",
    }
}

/// Whether a command ends so on an input: with this status, and with this on both streams.
pub(crate) fn ends(
    alloc: Global,
    command: EventCommand<'_>,
    input: &[u8],
    status: u8,
    out: &[u8],
    err: &str,
) -> bool {
    let mut input = input;
    let mut text = Vec::new(alloc);
    let mut told = Vec::new(alloc);
    let ended = run::<Sha256, &[u8], Vec<u8>, Vec<u8>>(
        command, alloc, &mut input, &mut text, &mut told,
    );
    ended == status && text.as_slice() == out && told.as_slice() == err.as_bytes()
}

/// The words of its message of the state.
pub(crate) fn words_of_state() -> EventWords<'static> {
    EventWords {
        seq: 2,
        time: "2026-11-30T12:00:01Z",
        ..words()
    }
}

/// Whether the message of a batch or of a state is this one.
pub(crate) fn is_written(
    alloc: Global,
    subject: Subject,
    words: EventWords<'_>,
    lines: &[u8],
    message: &[u8],
) -> bool {
    let form = Form::Hex;
    ends(
        alloc,
        EventCommand::Write {
            subject,
            words,
            form,
        },
        lines,
        0,
        message,
        "",
    )
}

/// Whether there is none, and this is said of it.
pub(crate) fn has_none(
    alloc: Global,
    subject: Subject,
    words: EventWords<'_>,
    lines: &[u8],
    err: &str,
) -> bool {
    let form = Form::Hex;
    ends(
        alloc,
        EventCommand::Write {
            subject,
            words,
            form,
        },
        lines,
        1,
        b"",
        err,
    )
}

/// Whether a batch isn't told, and this is said of it.
pub(crate) fn is_untold(alloc: Global, words: EventWords<'_>, lines: &[u8], err: &str) -> bool {
    has_none(alloc, Subject::Batch, words, lines, err)
}

/// Whether messages aren't true from a root on, and this is said of them.
pub(crate) fn is_untrue(alloc: Global, previous: &str, stream: &[u8], err: &str) -> bool {
    let form = Form::Hex;
    ends(
        alloc,
        EventCommand::Check { previous, form },
        stream,
        1,
        b"",
        err,
    )
}
