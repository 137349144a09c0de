//! The faults of two files by their names.
use crate::told::{A0, BLOCKS, CIDS, RECORDS, fault_of};
use difference_commands::ChangesCommand;
use std::alloc::Global;
use std::test::Fail;

/// Whether two files have the fault of this name.
fn is_told(
    alloc: Global,
    command: ChangesCommand,
    old: &[u8],
    new: &[u8],
    name: &str,
) -> Result<bool, Fail> {
    let Some(fault) = fault_of(alloc, command, old, new) else {
        return Ok(false);
    };
    let told = format!(in alloc; "{fault}")?;
    Ok(told.as_str() == name && fault.status() == 1)
}

#[test]
fn the_first_fault_and_of_which_file(rt: HostRuntime) -> Result<(), Fail> {
    let alloc = rt.alloc();
    let listing = format!(in alloc; "a/b {A0}\na/c 1\n")?;
    let listing = listing.as_bytes();
    assert!(rt; is_told(alloc, CIDS, b"a/b", b"a/b a0", "old: line 1: BadLine")?);
    assert!(rt; is_told(alloc, CIDS, b"a/b a0", b"\na/b a", "new: line 2: BadLine")?);
    assert!(rt; is_told(alloc, CIDS, b"ab a0", b"a/b a", "old: line 1: BadKey")?);
    assert!(rt; is_told(alloc, CIDS, b"a/b 80", b"a/b a0", "old: line 1: NotAMap")?);
    assert!(rt;
        is_told(
            alloc,
            CIDS,
            b"a/b a0",
            b"a/b a1",
            "new: line 1: BadRecord(Truncated)"
        )?
    );
    assert!(rt; is_told(alloc, CIDS, listing, b"a/b a0", "old: line 2: BadCid")?);
    assert!(rt; is_told(alloc, CIDS, b"\x3a\xa2", b"a/b a0", "old: Car(BadHeader)")?);
    assert!(rt; is_told(alloc, RECORDS, b"a/b a0", listing, "new: NoRecords")?);
    assert!(rt; is_told(alloc, BLOCKS, listing, b"a/b a0", "old: NoRecords")?);
    Ok(())
}
