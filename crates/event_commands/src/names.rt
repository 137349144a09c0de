//! The names of the faults of messages.
ghost use Rattle.std.specs.Prelude.{◌≡◌, Some};
ghost use Rattle.event_commands.specs.Names.{bad_record_name as record_fault_name_of, blocks_fault_name, car_fault_name as car_fault_name_of, cbor_fault_name as cbor_fault_name_of, change_name, commit_fault_name as commit_fault_name_of, event_fault_name, field_fault_name as field_fault_name_of, form_fault_name, of_operation, untold_fault_name};

use car_reader::CarFault;
use change_proofs::ChangeFault;
use commit_events::EventFault;
use console::Decimal;
use dagcbor::CborFault;
use event_blocks::BlocksFault;
use event_format::{Field, FormFault};
use event_writing::UntoldFault;
use record_rules::{RecordFault, bad_record_name};
use signed_commits::CommitFault;
use std::fmt;

/// A fault of a message, shown by its name: a fault inside it stands in parentheses, and before that of an operation stands the
/// operation's place.
#[derive(Drop)]
pub(crate) struct EventName<'a>(pub(crate) &'a EventFault);

impl fmt::Display for EventName<'_> {
    ghost output = { λ name. Some (event_fault_name name.0.now) };

    fn fmt<W: fmt::Write>(&self, f: &mut fmt::Formatter<W>) -> fmt::Result {
        match self.0 {
            EventFault::Form(fault) => FormName(fault).fmt(f),
            EventFault::DoubledPath(place) => OfOperation(*place, "DoubledPath").fmt(f),
            EventFault::OtherPrevious => f.write_str("OtherPrevious"),
            EventFault::Blocks(fault) => BlocksName(fault).fmt(f),
            EventFault::Change(fault) => ChangeName(fault).fmt(f),
            EventFault::NoMemory => f.write_str("no memory"),
        }
    }
}

/// Why no message tells of a batch, shown by its name.
#[derive(Drop)]
pub(crate) struct UntoldName<'a>(pub(crate) &'a UntoldFault);

impl fmt::Display for UntoldName<'_> {
    ghost output = { λ name. Some (untold_fault_name name.0.now) };

    fn fmt<W: fmt::Write>(&self, f: &mut fmt::Formatter<W>) -> fmt::Result {
        match self.0 {
            UntoldFault::NoBatch => f.write_str("NoBatch"),
            UntoldFault::BadSeq => f.write_str("BadSeq"),
            UntoldFault::Form(fault) => FormName(fault).fmt(f),
            UntoldFault::OtherValue(place) => OfOperation(*place, "OtherValue").fmt(f),
            UntoldFault::RecordSize(place) => OfOperation(*place, "RecordSize").fmt(f),
            UntoldFault::NoMemory => f.write_str("no memory"),
        }
    }
}

/// A fault of the operation at a place, by its name.
#[derive(Drop)]
struct OfOperation<'a>(usize, &'a str);

impl fmt::Display for OfOperation<'_> {
    ghost output = { λ fault. Some (of_operation fault.0 fault.1.now) };

    fn fmt<W: fmt::Write>(&self, f: &mut fmt::Formatter<W>) -> fmt::Result {
        let place = Decimal(self.0 as u64);
        let name = self.1;
        write!(f, "operation {place}: {name}")
    }
}

/// A fault of a message's form, shown by its name.
#[derive(Drop)]
struct FormName<'a>(&'a FormFault);

impl fmt::Display for FormName<'_> {
    ghost output = { λ name. Some (form_fault_name name.0.now) };

    fn fmt<W: fmt::Write>(&self, f: &mut fmt::Formatter<W>) -> fmt::Result {
        match self.0 {
            FormFault::MessageSize => f.write_str("MessageSize"),
            FormFault::NotCommit => f.write_str("NotCommit"),
            FormFault::Cbor(fault) => f.write_str(cbor_fault_name(fault)),
            FormFault::NotAMap => f.write_str("NotAMap"),
            FormFault::BadField(field) => f.write_str(field_fault_name(field)),
            FormFault::Rebase => f.write_str("Rebase"),
            FormFault::TooBig => f.write_str("TooBig"),
            FormFault::TooManyOps => f.write_str("TooManyOps"),
            FormFault::BlocksSize => f.write_str("BlocksSize"),
            FormFault::BadDid => f.write_str("BadDid"),
            FormFault::BadRev => f.write_str("BadRev"),
            FormFault::BadSince => f.write_str("BadSince"),
            FormFault::RevOrder => f.write_str("RevOrder"),
            FormFault::BadTime => f.write_str("BadTime"),
            FormFault::BadOp(place) => OfOperation(*place, "BadOp").fmt(f),
            FormFault::NoMemory => f.write_str("no memory"),
        }
    }
}

/// A fault of a message's blocks, shown by its name.
#[derive(Drop)]
struct BlocksName<'a>(&'a BlocksFault);

impl fmt::Display for BlocksName<'_> {
    ghost output = { λ name. Some (blocks_fault_name name.0.now) };

    fn fmt<W: fmt::Write>(&self, f: &mut fmt::Formatter<W>) -> fmt::Result {
        match self.0 {
            BlocksFault::Car(fault) => f.write_str(car_fault_name(fault)),
            BlocksFault::NotTheRoot => f.write_str("NotTheRoot"),
            BlocksFault::Misnamed => f.write_str("Misnamed"),
            BlocksFault::CommitMissing => f.write_str("CommitMissing"),
            BlocksFault::Commit(fault) => f.write_str(commit_fault_name(fault)),
            BlocksFault::OtherDid => f.write_str("OtherDid"),
            BlocksFault::OtherRev => f.write_str("OtherRev"),
            BlocksFault::RecordMissing(place) => OfOperation(*place, "RecordMissing").fmt(f),
            BlocksFault::RecordSize(place) => OfOperation(*place, "RecordSize").fmt(f),
            BlocksFault::BadRecord(place, fault) => OfOperation(
                *place,
                record_fault_name(fault),
            ).fmt(f),
            BlocksFault::NoMemory => f.write_str("no memory"),
        }
    }
}

/// Why blocks don't show operations, shown by its name; the CID of a block that it names stands in parentheses.
#[derive(Drop)]
struct ChangeName<'a>(&'a ChangeFault);

impl fmt::Display for ChangeName<'_> {
    ghost output = { λ name. Some (change_name name.0.now) };

    fn fmt<W: fmt::Write>(&self, f: &mut fmt::Formatter<W>) -> fmt::Result {
        match self.0 {
            ChangeFault::BlockMissing(cid) => write!(f, "BlockMissing({cid})"),
            ChangeFault::BadNode(cid) => write!(f, "BadNode({cid})"),
            ChangeFault::TooDeep => f.write_str("TooDeep"),
            ChangeFault::NotTree => f.write_str("NotTree"),
            ChangeFault::OtherValue(place) => OfOperation(*place, "OtherValue").fmt(f),
            ChangeFault::OtherRoot => f.write_str("OtherRoot"),
            ChangeFault::NoMemory => f.write_str("no memory"),
        }
    }
}

/// The name of a message that isn't DAG-CBOR, for its first fault.
fn cbor_fault_name(fault: &CborFault) -> &'static str
    ensures { result.now ≡ cbor_fault_name_of fault.now }
{
    match fault {
        CborFault::Truncated => "Cbor(Truncated)",
        CborFault::LongHead => "Cbor(LongHead)",
        CborFault::Indefinite => "Cbor(Indefinite)",
        CborFault::BadTag => "Cbor(BadTag)",
        CborFault::BadLink => "Cbor(BadLink)",
        CborFault::KeyNotText => "Cbor(KeyNotText)",
        CborFault::KeyOrder => "Cbor(KeyOrder)",
        CborFault::BadUtf8 => "Cbor(BadUtf8)",
        CborFault::Float => "Cbor(Float)",
        CborFault::Simple => "Cbor(Simple)",
        CborFault::IntegerRange => "Cbor(IntegerRange)",
        CborFault::TooDeep => "Cbor(TooDeep)",
        CborFault::Trailing => "Cbor(Trailing)",
        CborFault::NoMemory => "Cbor(NoMemory)",
    }
}

/// The name of a message's fault that is one of this field.
fn field_fault_name(field: &Field) -> &'static str
    ensures { result.now ≡ field_fault_name_of field.now }
{
    match field {
        Field::Ops => "BadField(ops)",
        Field::Rev => "BadField(rev)",
        Field::Seq => "BadField(seq)",
        Field::Repo => "BadField(repo)",
        Field::Time => "BadField(time)",
        Field::Blobs => "BadField(blobs)",
        Field::Since => "BadField(since)",
        Field::Blocks => "BadField(blocks)",
        Field::Commit => "BadField(commit)",
        Field::Rebase => "BadField(rebase)",
        Field::TooBig => "BadField(tooBig)",
        Field::PrevData => "BadField(prevData)",
    }
}

/// The name of a fault of the file that a message holds.
fn car_fault_name(fault: &CarFault) -> &'static str
    ensures { result.now ≡ car_fault_name_of fault.now }
{
    match fault {
        CarFault::BadHeader => "Car(BadHeader)",
        CarFault::BadLength => "Car(BadLength)",
        CarFault::Truncated => "Car(Truncated)",
        CarFault::BadCid => "Car(BadCid)",
        CarFault::NoMemory => "Car(NoMemory)",
    }
}

/// The name of a fault of a commit.
fn commit_fault_name(fault: &CommitFault) -> &'static str
    ensures { result.now ≡ commit_fault_name_of fault.now }
{
    match fault {
        CommitFault::NotACommit => "Commit(NotACommit)",
        CommitFault::BadDid => "Commit(BadDid)",
        CommitFault::BadRev => "Commit(BadRev)",
    }
}

/// The name of a fault of a record.
fn record_fault_name(fault: &RecordFault) -> &'static str
    ensures { result.now ≡ record_fault_name_of fault.now }
{
    match fault {
        RecordFault::RecordSize => "RecordSize",
        RecordFault::BadRecord(fault) => bad_record_name(fault),
        RecordFault::NotAMap => "NotAMap",
    }
}
