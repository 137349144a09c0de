//! Two files of many keys.
use crate::told::{A0, A161610A, CIDS, tells};
use std::alloc::Global;
use std::test::Fail;

/// Lines of 2,000 keys with the record `a0`, but for one key, which has this record, in hexadecimal.
fn lines_of_many(alloc: Global, record: &str) -> Result<Vec<u8>, Fail> {
    let mut lines = Vec::new(alloc);
    for number in 0..2000u32 {
        let record = if number == 1234 { record } else { "a0" };
        let line = format!(in alloc; "a/{number} {record}\n")?;
        lines.extend_from_slice(line.as_bytes())?;
    }
    Ok(lines)
}

#[test]
fn one_of_2000_keys_has_another_record(rt: HostRuntime) -> Result<(), Fail> {
    let alloc = rt.alloc();
    let old = lines_of_many(alloc, "a0")?;
    let new = lines_of_many(alloc, "a161610a")?;
    let line = format!(in alloc; "change a/1234 {A0} {A161610A}\n")?;
    assert!(rt; tells(alloc, CIDS, &old, &new, line.as_bytes()));
    assert!(rt; tells(alloc, CIDS, &new, &new, b""));
    Ok(())
}
