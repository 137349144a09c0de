//! The numbers of why a message isn't taken, each with a place, or 0.

ghost use Rattle.std.specs.Prelude.{◌≡◌, false, length, nat_eq, option_map};
ghost use Rattle.spec.specs.Writes.{BadRecord as NoRecord};
ghost use Rattle.event_laws.specs.Reading.{Cbor};
ghost use Rattle.event_laws.specs.Verdict.{OfCar, OfCommit, BadRecord};
ghost use Rattle.event_format.specs.Views.{form_fault_of, name_of};
ghost use Rattle.event_blocks.specs.Views.{blocks_fault_of};
ghost use Rattle.car_reader.specs.Views.{car_fault_of};
ghost use Rattle.signed_commits.specs.Views.{commit_fault_of};
ghost use Rattle.record_rules.specs.Faults.{record_fault_of};
ghost use Rattle.dagcbor.specs.Fault.{cbor_fault_of};
ghost use Rattle.commit_events.specs.Views.{change_fault_of, event_fault_of};
ghost use Rattle.tizulgech.specs.Messages.{change_told as change_told_of, event_told as event_told_of, field_number, form_told as form_told_of, node_or_want, told_or_want};

use crate::codes::{BAD_NODE, NO_MEMORY, NOT_TREE, TOO_DEEP, fault_of_record};
use crate::signed::code_of_commit;
use crate::told_changes::{OTHER_ROOT, OTHER_VALUE};
use car_reader::CarFault;
use change_proofs::ChangeFault;
use commit_events::EventFault;
use dagcbor::CborFault;
use event_blocks::BlocksFault;
use event_format::{Field, FormFault};
use record_rules::RecordFault;
use signed_commits::CommitFault;

/// What follows the header of a message isn't one value of DAG-CBOR.
const MESSAGE_CBOR: u8 = 109;
/// A node that is needed isn't in a message.
const NODE_MISSING: u8 = 129;

/// The place of a field of a message in the order of DAG-CBOR.
fn place_of_field(field: Field) -> usize
    ensures { result ≡ field_number (name_of field) }
{
    match field {
        Field::Ops => 0,
        Field::Rev => 1,
        Field::Seq => 2,
        Field::Repo => 3,
        Field::Time => 4,
        Field::Blobs => 5,
        Field::Since => 6,
        Field::Blocks => 7,
        Field::Commit => 8,
        Field::Rebase => 9,
        Field::TooBig => 10,
        Field::PrevData => 11,
    }
}

/// The number of a fault of DAG-CBOR in a message, in place of a place.
fn cbor_told(fault: CborFault) -> (u8, usize)
    ensures told { result ≡ told_or_want form_told_of (option_map Cbor (cbor_fault_of fault)) }
    ensures no_clash { nat_eq result.0 253 ≡ false }
    ensures not_full { nat_eq result.0 254 ≡ false }
    ensures refused { nat_eq result.0 0 ≡ false }
{
    match fault {
        CborFault::NoMemory => (NO_MEMORY, 0),
        fault => (MESSAGE_CBOR, fault_of_record(fault) as usize),
    }
}

/// Why bytes are no message.
pub(crate) fn form_told(fault: FormFault) -> (u8, usize)
    ensures told { result ≡ told_or_want form_told_of (form_fault_of fault) }
    ensures no_clash { nat_eq result.0 253 ≡ false }
    ensures not_full { nat_eq result.0 254 ≡ false }
    ensures refused { nat_eq result.0 0 ≡ false }
{
    match fault {
        FormFault::MessageSize => (107, 0),
        FormFault::NotCommit => (108, 0),
        FormFault::Cbor(fault) => cbor_told(fault),
        FormFault::NotAMap => (110, 0),
        FormFault::BadField(field) => (111, place_of_field(field)),
        FormFault::Rebase => (112, 0),
        FormFault::TooBig => (113, 0),
        FormFault::TooManyOps => (114, 0),
        FormFault::BlocksSize => (115, 0),
        FormFault::BadDid => (27, 0),
        FormFault::BadRev => (28, 0),
        FormFault::BadSince => (116, 0),
        FormFault::RevOrder => (117, 0),
        FormFault::BadTime => (118, 0),
        FormFault::BadOp(place) => (119, place),
        FormFault::NoMemory => (NO_MEMORY, 0),
    }
}

/// Why bytes are no CAR file.
fn car_told(fault: CarFault) -> (u8, usize)
    ensures { result ≡ told_or_want event_told_of (option_map OfCar (car_fault_of fault)) }
{
    match fault {
        CarFault::BadHeader => (103, 0),
        CarFault::BadLength => (104, 0),
        CarFault::Truncated => (105, 0),
        CarFault::BadCid => (106, 0),
        CarFault::NoMemory => (NO_MEMORY, 0),
    }
}

/// Why the bytes of a commit are none.
fn commit_told(fault: CommitFault) -> (u8, usize)
    ensures { result ≡ told_or_want event_told_of (option_map OfCommit (commit_fault_of fault)) }
{
    (code_of_commit(fault), 0)
}

/// Why the record of the operation at a place is none.
fn record_told(place: usize, fault: RecordFault) -> (u8, usize)
    ensures { result ≡ told_or_want event_told_of (option_map (BadRecord place) (record_fault_of fault)) }
{
    match fault {
        RecordFault::RecordSize => (22, place),
        RecordFault::BadRecord(fault) => bytes_told(place, fault),
        RecordFault::NotAMap => (21, place),
    }
}

/// Why the record of the operation at a place isn't DAG-CBOR.
fn bytes_told(place: usize, fault: CborFault) -> (u8, usize)
    ensures { result ≡ told_or_want event_told_of
        (option_map (BadRecord place) (option_map NoRecord (cbor_fault_of fault))) }
{
    match fault {
        CborFault::NoMemory => (NO_MEMORY, 0),
        fault => (fault_of_record(fault), place),
    }
}

/// Why the blocks of a message aren't what it tells of.
fn blocks_told(fault: BlocksFault) -> (u8, usize)
    ensures { result ≡ told_or_want event_told_of (blocks_fault_of fault) }
{
    match fault {
        BlocksFault::Car(fault) => car_told(fault),
        BlocksFault::NotTheRoot => (122, 0),
        BlocksFault::Misnamed => (123, 0),
        BlocksFault::CommitMissing => (124, 0),
        BlocksFault::Commit(fault) => commit_told(fault),
        BlocksFault::OtherDid => (125, 0),
        BlocksFault::OtherRev => (126, 0),
        BlocksFault::RecordMissing(place) => (127, place),
        BlocksFault::RecordSize(place) => (128, place),
        BlocksFault::BadRecord(place, fault) => record_told(place, fault),
        BlocksFault::NoMemory => (NO_MEMORY, 0),
    }
}

/// Why the blocks of a message don't show its operations.
fn change_told(fault: &ChangeFault) -> (u8, usize)
    ensures { result ≡ told_or_want change_told_of (change_fault_of fault.now) }
{
    match fault {
        ChangeFault::BlockMissing(_) => (NODE_MISSING, 0),
        ChangeFault::BadNode(_) => (BAD_NODE, 0),
        ChangeFault::TooDeep => (TOO_DEEP, 0),
        ChangeFault::NotTree => (NOT_TREE, 0),
        ChangeFault::OtherValue(place) => (OTHER_VALUE, *place),
        ChangeFault::OtherRoot => (OTHER_ROOT, 0),
        ChangeFault::NoMemory => (NO_MEMORY, 0),
    }
}

/// Why a message isn't taken.
#[tactic(auto, using(crate::proofs::EventNumbers::form_in_event, crate::proofs::EventNumbers::change_in_event))]
fn event_told(fault: &EventFault) -> (u8, usize)
    ensures { result ≡ told_or_want event_told_of (event_fault_of fault.now) }
{
    match fault {
        EventFault::Form(fault) => form_told(*fault),
        EventFault::DoubledPath(place) => (120, *place),
        EventFault::OtherPrevious => (121, 0),
        EventFault::Blocks(fault) => blocks_told(*fault),
        EventFault::Change(fault) => change_told(fault),
        EventFault::NoMemory => (NO_MEMORY, 0),
    }
}

/// Tells why a message isn't taken: the number, and the place; and of a node that is missing, or none, its CID.
pub(crate) fn tell_event(fault: &EventFault, place: &mut usize, missing: &mut [u8]) -> u8
    requires { length missing.old ≡ 36 }
    ensures told { (result, place.new) ≡ told_or_want event_told_of (event_fault_of fault.now) }
    ensures node { missing.new ≡ node_or_want (event_fault_of fault.now) missing.old }
    ensures kept { ¬ (result ≡ 129) → ¬ (result ≡ 30) → missing.new ≡ missing.old }
{
    let (number, at) = event_told(fault);
    *place = at;
    match fault {
        EventFault::Change(ChangeFault::BlockMissing(cid) | ChangeFault::BadNode(cid)) => {
            missing.copy_from_slice(cid.as_bytes());
        }
        _ => {}
    }
    number
}
