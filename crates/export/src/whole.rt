//! Writing whole runs of bytes.

ghost use Rattle.std.specs.Prelude.{◌++◌};
ghost use Rattle.export.specs.Outs.{Fails, Takes};

use crate::out::{Failed, Out};

/// Writes all of the bytes, in as many calls as the output needs. After `Failed` it took a beginning of them.
#[inline(always)]
pub(crate) fn write_whole<W: Out>(out: &mut W, bytes: &[u8]) -> Result<(), Failed>
    ensures taken { Takes (W.taken out.old) (W.taken out.new) result bytes.now }
    ensures failures { Fails (W.failures out.old) (W.failures out.new) result }
{
    let mut rest = bytes;
    while !rest.is_empty() {
        let count = out.write(rest)?;
        rest = &rest[count..];
    }
    Ok(())
}

/// Writes three runs of bytes, one after the other.
#[inline(always)]
pub(crate) fn write_three<W: Out>(
    out: &mut W,
    first: &[u8],
    second: &[u8],
    third: &[u8],
) -> Result<(), Failed>
    ensures taken { Takes (W.taken out.old) (W.taken out.new) result
        (first.now ++ (second.now ++ third.now)) }
    ensures failures { Fails (W.failures out.old) (W.failures out.new) result }
{
    write_whole(out, first)?;
    write_whole(out, second)?;
    write_whole(out, third)
}
