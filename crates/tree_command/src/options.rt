//! What a listing is told: its fan-out, and which keys it takes.
ghost use Rattle.tree_command.specs.Outcomes.{IsOutcome};
ghost use Rattle.tree_command.specs.TreeText.{listing};

use crate::bits::Bits;
use crate::fault::TreeFault;
use crate::keys::Keys;
use crate::text::tree_text;
use cid::Digest;
use console::CommandFault;
use std::alloc::Allocator;
use std::io::{Read, Write};

/// What a listing is told.
#[derive(Clone, Copy, PartialEq, Eq, Debug)]
pub struct TreeOptions {
    /// Its fan-out.
    pub bits: Bits,
    /// Which keys it takes.
    pub keys: Keys,
}

/// `tree_text` with these options.
pub(crate) fn tree_text_with<D: Digest, A: Allocator + Clone, R: Read, W: Write>(
    options: TreeOptions,
    alloc: A,
    input: &mut R,
    out: &mut W,
) -> Result<(), CommandFault<TreeFault>>
    ensures { IsOutcome (listing D.digest_of options) (R.remaining input.old)
        (R.remaining input.new) (W.contents out.old) (W.contents out.new) result }
{
    match options.bits.number() {
        1 => tree_text::<D, 1, A, R, W>(options.keys, alloc, input, out),
        2 => tree_text::<D, 2, A, R, W>(options.keys, alloc, input, out),
        3 => tree_text::<D, 3, A, R, W>(options.keys, alloc, input, out),
        4 => tree_text::<D, 4, A, R, W>(options.keys, alloc, input, out),
        5 => tree_text::<D, 5, A, R, W>(options.keys, alloc, input, out),
        6 => tree_text::<D, 6, A, R, W>(options.keys, alloc, input, out),
        7 => tree_text::<D, 7, A, R, W>(options.keys, alloc, input, out),
        _ => tree_text::<D, 8, A, R, W>(options.keys, alloc, input, out),
    }
}
