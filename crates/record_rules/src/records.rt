//! Records.

ghost use Rattle.std.specs.Prelude.{IfErr, IsSome};
ghost use Rattle.spec.specs.Reading.{Gives};
ghost use Rattle.spec.specs.Writes.{record_test};
ghost use Rattle.record_rules.specs.Faults.{record_fault_of};

use crate::fault::RecordFault;
use dagcbor::spells_map;

/// Tests a record: at most 1,048,576 bytes (`RecordFault::RecordSize`) of DAG-CBOR (`RecordFault::BadRecord`), and one map
/// (`RecordFault::NotAMap`). Takes no memory.
pub fn test_record(bytes: &[u8]) -> Result<(), RecordFault>
    ensures tested { Gives (λ done. done) record_fault_of result (record_test bytes.now) }
    ensures takes_no_memory { IfErr result (λ fault. IsSome (record_fault_of fault)) }
{
    if bytes.len() > 1_048_576 {
        return Err(RecordFault::RecordSize);
    }
    match spells_map(bytes) {
        Ok(true) => Ok(()),
        Ok(false) => Err(RecordFault::NotAMap),
        Err(fault) => Err(RecordFault::BadRecord(fault)),
    }
}
