//! The names of the faults of a file.

ghost use Rattle.std.specs.Prelude.{◌≡◌, Some};
ghost use Rattle.export_commands.specs.Names.{car_fault_name as car_fault_name_of, check_fault_name, commit_fault_name as commit_fault_name_of, record_fault_name as record_fault_name_of};

use car_reader::CarFault;
use console::Decimal;
use record_rules::bad_record_name;
use repository_check::{CheckFault, RecordFault};
use signed_commits::CommitFault;
use std::fmt;

/// A fault of a file, shown by its name: a fault inside it stands in parentheses, and before that of a record stands the
/// record's place.
#[derive(Drop)]
pub(crate) struct CheckName<'a>(pub(crate) &'a CheckFault);

impl fmt::Display for CheckName<'_> {
    ghost output = { λ name. Some (check_fault_name name.0.now) };

    fn fmt<W: fmt::Write>(&self, f: &mut fmt::Formatter<W>) -> fmt::Result {
        match self.0 {
            CheckFault::Car(fault) => f.write_str(car_fault_name(fault)),
            CheckFault::Misnamed => f.write_str("Misnamed"),
            CheckFault::NoCommit => f.write_str("NoCommit"),
            CheckFault::Commit(fault) => f.write_str(commit_fault_name(fault)),
            CheckFault::NotTheTree => f.write_str("NotTheTree"),
            CheckFault::Record(place, fault) => {
                let place = Decimal(*place);
                let name = record_fault_name(fault);
                write!(f, "record {place}: {name}")
            }
            CheckFault::NoMemory => f.write_str("no memory"),
        }
    }
}

/// The name of a fault of a file's form.
fn car_fault_name(fault: &CarFault) -> &'static str
    ensures { result.now ≡ car_fault_name_of fault.now }
{
    match fault {
        CarFault::BadHeader => "Car(BadHeader)",
        CarFault::BadLength => "Car(BadLength)",
        CarFault::Truncated => "Car(Truncated)",
        CarFault::BadCid => "Car(BadCid)",
        CarFault::NoMemory => "Car(NoMemory)",
    }
}

/// The name of a fault of a commit.
fn commit_fault_name(fault: &CommitFault) -> &'static str
    ensures { result.now ≡ commit_fault_name_of fault.now }
{
    match fault {
        CommitFault::NotACommit => "Commit(NotACommit)",
        CommitFault::BadDid => "Commit(BadDid)",
        CommitFault::BadRev => "Commit(BadRev)",
    }
}

/// The name of a fault of a record.
fn record_fault_name(fault: &RecordFault) -> &'static str
    ensures { result.now ≡ record_fault_name_of fault.now }
{
    match fault {
        RecordFault::BadKey => "BadKey",
        RecordFault::NoRecord => "NoRecord",
        RecordFault::RecordSize => "RecordSize",
        RecordFault::BadRecord(fault) => bad_record_name(fault),
        RecordFault::NotAMap => "NotAMap",
    }
}
