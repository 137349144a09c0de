//! Messages that are checked.
use crate::message::{EMPTY, LINE, MESSAGE, SYNC};
use crate::running::{ends, is_untrue};
use event_commands::EventCommand;
use record_forms::Form;
use std::alloc::Global;
use std::test::Fail;

/// Whether messages are true from the empty tree on, and this is told of them.
fn is_told(alloc: Global, form: Form, stream: &[u8], out: &str) -> bool {
    ends(
        alloc,
        EventCommand::Check {
            previous: EMPTY,
            form,
        },
        stream,
        0,
        out.as_bytes(),
        "",
    )
}

#[test]
fn a_message_of_another_program_is_true(rt: HostRuntime) -> Result<(), Fail> {
    let alloc = rt.alloc();
    let message = hex::decode(alloc, MESSAGE)?;
    assert!(rt; is_told(alloc, Form::Hex, &message, LINE));
    let with_operation = format!(in alloc; "{LINE}create a/b {{}}\n")?;
    assert!(rt; is_told(alloc, Form::Json, &message, &with_operation));
    assert!(rt; is_told(alloc, Form::Hex, b"", ""));
    Ok(())
}

#[test]
fn the_root_goes_on_from_message_to_message(rt: HostRuntime) -> Result<(), Fail> {
    let alloc = rt.alloc();
    let message = hex::decode(alloc, MESSAGE)?;
    let mut twice = message.clone()?;
    twice.extend_from_slice(&message)?;
    assert!(rt; is_untrue(alloc, EMPTY, &twice, "msthost: message 2: OtherPrevious\n"));
    Ok(())
}

#[test]
fn a_message_of_a_state_is_none_of_a_batch(rt: HostRuntime) -> Result<(), Fail> {
    let alloc = rt.alloc();
    let message = hex::decode(alloc, MESSAGE)?;
    let sync = hex::decode(alloc, SYNC)?;
    let mut before = sync.clone()?;
    before.extend_from_slice(&message)?;
    assert!(rt; is_untrue(alloc, EMPTY, &before, "msthost: message 1: NotCommit\n"));
    let mut between = message.clone()?;
    between.extend_from_slice(&sync)?;
    between.extend_from_slice(&message)?;
    assert!(rt; is_untrue(alloc, EMPTY, &between, "msthost: message 2: NotCommit\n"));
    Ok(())
}

#[test]
fn what_is_no_message_has_a_number(rt: HostRuntime) -> Result<(), Fail> {
    let alloc = rt.alloc();
    let mut stream = hex::decode(alloc, MESSAGE)?;
    stream.push(0xa0)?;
    assert!(rt; is_untrue(alloc, EMPTY, &stream, "msthost: message 2: NotCommit\n"));
    let (short, _) = stream.split_at(stream.len().min(100));
    assert!(rt;
        short.len() == 100
            && is_untrue(alloc, EMPTY, short, "msthost: message 1: Cbor(Truncated)\n")
    );
    assert!(rt; is_untrue(alloc, "b", &stream, "msthost: BadLength\n"));
    Ok(())
}
