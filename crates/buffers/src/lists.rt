//! Lists of byte strings.

ghost use Rattle.std.specs.Prelude.{◌≡◌, map, option_map, IfOk};
ghost use Rattle.buffers.specs.Framing.{cut, part_at};

use std::alloc::{AllocError, Global};

/// The parts that lie one after another, each up to its end; or `None` where the ends don't ascend, or one is behind the
/// bytes. Bytes behind the last end are passed over.
///
/// `AllocError` comes where memory was refused.
#[tactic(auto, using(crate::proofs::Cutting::cut_next, crate::proofs::Cutting::cut_none, crate::proofs::Cutting::cut_done))]
pub fn slices<'a>(
    alloc: Global,
    bytes: &'a [u8],
    ends: &[usize],
) -> Result<Option<Vec<&'a [u8]>>, AllocError>
    ensures { IfOk result (λ parts.
        option_map (λ parts. map (λ part. part.now) parts.items) parts
        ≡ cut 0 ends.now bytes.now) }
{
    let mut parts = Vec::new(alloc);
    let mut rest = bytes;
    let mut start = 0;
    for end in ends {
        let Some((part, after)) = next_part(start, *end, rest) else {
            return Ok(None);
        };
        parts.push(part)?;
        rest = after;
        start = *end;
    }
    Ok(Some(parts))
}

/// The next part, and what comes after it.
fn next_part(start: usize, end: usize, bytes: &[u8]) -> Option<(&[u8], &[u8])>
    ensures { option_map (λ part. (part.0.now, part.1.now)) result
        ≡ part_at start end bytes.now }
{
    if end < start || bytes.len() < end - start {
        return None;
    }
    Some(bytes.split_at(end - start))
}
