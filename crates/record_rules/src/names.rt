//! The names of a record's faults.
ghost use Rattle.std.specs.Prelude.{◌≡◌};
ghost use Rattle.record_rules.specs.Names.{bad_record_name as bad_record_name_of};

use dagcbor::CborFault;

/// The name of the refusal of a record that isn't DAG-CBOR, for its first fault, as commands and reports show it:
/// `BadRecord(Float)`.
pub fn bad_record_name(fault: &CborFault) -> &'static str
    ensures { result.now ≡ bad_record_name_of fault.now }
{
    match fault {
        CborFault::Truncated => "BadRecord(Truncated)",
        CborFault::LongHead => "BadRecord(LongHead)",
        CborFault::Indefinite => "BadRecord(Indefinite)",
        CborFault::BadTag => "BadRecord(BadTag)",
        CborFault::BadLink => "BadRecord(BadLink)",
        CborFault::KeyNotText => "BadRecord(KeyNotText)",
        CborFault::KeyOrder => "BadRecord(KeyOrder)",
        CborFault::BadUtf8 => "BadRecord(BadUtf8)",
        CborFault::Float => "BadRecord(Float)",
        CborFault::Simple => "BadRecord(Simple)",
        CborFault::IntegerRange => "BadRecord(IntegerRange)",
        CborFault::TooDeep => "BadRecord(TooDeep)",
        CborFault::Trailing => "BadRecord(Trailing)",
        CborFault::NoMemory => "BadRecord(NoMemory)",
    }
}
