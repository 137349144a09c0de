//! The word of a record's CID in a line.
ghost use Rattle.std.specs.Prelude.{◌≡◌, ◌++◌, OnOk};
ghost use Rattle.console.specs.Values.{value_words};

use cid::Cid;
use std::alloc::{AllocError, Allocator};

/// Puts a space and the text of a record's CID at the end, or a space and `-` where there is no record.
///
/// `AllocError` comes where memory was refused; then a beginning of these may have been added.
pub fn push_value<A: Allocator>(
    text: &mut Vec<u8, A>,
    value: &Option<Cid>,
) -> Result<(), AllocError>
    ensures { OnOk result (text.new.items ≡ text.old.items ++ value_words value.now) }
{
    match value {
        Some(cid) => {
            text.push(b' ')?;
            text.extend_from_slice(&cid.text())?;
        }
        None => text.extend_from_slice(b" -")?,
    }
    Ok(())
}
