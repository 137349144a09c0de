//! The names of faults.
use car_reader::CarFault;
use change_proofs::ChangeFault;
use cid::{Cid, Sha256};
use commit_events::EventFault;
use console::{FAULTY, NO_MEMORY};
use dagcbor::CborFault;
use event_blocks::BlocksFault;
use event_commands::MessageFault;
use event_format::{Field, FormFault};
use event_writing::UntoldFault;
use record_rules::RecordFault;
use signed_commits::CommitFault;
use std::alloc::Global;
use std::test::Fail;

/// Whether a fault of the third message is shown so, and ends with this status.
fn is_shown(alloc: Global, fault: EventFault, status: u8, name: &str) -> Result<bool, Fail> {
    let fault = MessageFault::<Sha256>::Message { number: 3, fault };
    let shown = format!(in alloc; "{fault}")?;
    let wanted = format!(in alloc; "message 3: {name}")?;
    Ok(fault.status() == status && shown == wanted)
}

/// Whether it is shown so that a batch isn't told.
fn is_untold(alloc: Global, fault: UntoldFault, status: u8, name: &str) -> Result<bool, Fail> {
    let fault = MessageFault::<Sha256>::Untold(fault);
    Ok(fault.status() == status && format!(in alloc; "{fault}")?.as_str() == name)
}

#[test]
fn faults_of_a_message(rt: HostRuntime) -> Result<(), Fail> {
    let alloc = rt.alloc();
    let form = [
        (FormFault::MessageSize, "MessageSize"),
        (FormFault::NotCommit, "NotCommit"),
        (FormFault::Cbor(CborFault::Float), "Cbor(Float)"),
        (FormFault::NotAMap, "NotAMap"),
        (FormFault::BadField(Field::TooBig), "BadField(tooBig)"),
        (FormFault::Rebase, "Rebase"),
        (FormFault::TooBig, "TooBig"),
        (FormFault::TooManyOps, "TooManyOps"),
        (FormFault::BlocksSize, "BlocksSize"),
        (FormFault::BadDid, "BadDid"),
        (FormFault::BadRev, "BadRev"),
        (FormFault::BadSince, "BadSince"),
        (FormFault::RevOrder, "RevOrder"),
        (FormFault::BadTime, "BadTime"),
        (FormFault::BadOp(2), "operation 2: BadOp"),
    ];
    for (fault, name) in &form {
        assert!(rt; is_shown(alloc, EventFault::Form(*fault), FAULTY, name)?);
    }
    assert!(rt;
        is_shown(
            alloc,
            EventFault::DoubledPath(1),
            FAULTY,
            "operation 1: DoubledPath"
        )?
    );
    assert!(rt; is_shown(alloc, EventFault::OtherPrevious, FAULTY, "OtherPrevious")?);
    assert!(rt; is_shown(alloc, EventFault::NoMemory, NO_MEMORY, "no memory")?);
    Ok(())
}

#[test]
fn faults_of_blocks(rt: HostRuntime) -> Result<(), Fail> {
    let alloc = rt.alloc();
    let bad_record = RecordFault::BadRecord(CborFault::Float);
    let blocks = [
        (BlocksFault::Car(CarFault::Truncated), "Car(Truncated)"),
        (BlocksFault::NotTheRoot, "NotTheRoot"),
        (BlocksFault::Misnamed, "Misnamed"),
        (BlocksFault::CommitMissing, "CommitMissing"),
        (BlocksFault::Commit(CommitFault::BadRev), "Commit(BadRev)"),
        (BlocksFault::OtherDid, "OtherDid"),
        (BlocksFault::OtherRev, "OtherRev"),
        (BlocksFault::RecordMissing(0), "operation 0: RecordMissing"),
        (BlocksFault::RecordSize(1), "operation 1: RecordSize"),
        (
            BlocksFault::BadRecord(2, bad_record),
            "operation 2: BadRecord(Float)",
        ),
    ];
    for (fault, name) in &blocks {
        assert!(rt; is_shown(alloc, EventFault::Blocks(*fault), FAULTY, name)?);
    }
    Ok(())
}

#[test]
fn faults_of_changes(rt: HostRuntime) -> Result<(), Fail> {
    let alloc = rt.alloc();
    let cid = Cid::of::<Sha256>(b"");
    let missing = format!(in alloc; "BlockMissing({cid})")?;
    let bad = format!(in alloc; "BadNode({cid})")?;
    let changes = [
        (ChangeFault::BlockMissing(cid), missing.as_str()),
        (ChangeFault::BadNode(cid), bad.as_str()),
        (ChangeFault::TooDeep, "TooDeep"),
        (ChangeFault::NotTree, "NotTree"),
        (ChangeFault::OtherValue(4), "operation 4: OtherValue"),
        (ChangeFault::OtherRoot, "OtherRoot"),
    ];
    for (fault, name) in &changes {
        assert!(rt; is_shown(alloc, EventFault::Change(*fault), FAULTY, name)?);
    }
    Ok(())
}

#[test]
fn faults_of_a_batch(rt: HostRuntime) -> Result<(), Fail> {
    let alloc = rt.alloc();
    let form = UntoldFault::Form(FormFault::BlocksSize);
    assert!(rt; is_untold(alloc, UntoldFault::NoBatch, FAULTY, "NoBatch")?);
    assert!(rt; is_untold(alloc, UntoldFault::BadSeq, FAULTY, "BadSeq")?);
    assert!(rt; is_untold(alloc, form, FAULTY, "BlocksSize")?);
    assert!(rt;
        is_untold(
            alloc,
            UntoldFault::OtherValue(1),
            FAULTY,
            "operation 1: OtherValue"
        )?
    );
    assert!(rt;
        is_untold(
            alloc,
            UntoldFault::RecordSize(0),
            FAULTY,
            "operation 0: RecordSize"
        )?
    );
    assert!(rt; is_untold(alloc, UntoldFault::NoMemory, NO_MEMORY, "no memory")?);
    Ok(())
}
