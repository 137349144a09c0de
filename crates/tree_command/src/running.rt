//! The run of `tree`, to the exit status.
ghost use Rattle.std.specs.Prelude.{◌≡◌};
ghost use Rattle.tree_command.specs.Fault.{end_status};
ghost use Rattle.tree_command.specs.Outcomes.{IsStatusOf};
ghost use Rattle.tree_command.specs.TreeText.{listing};

use crate::fault::TreeFault;
use crate::options::{TreeOptions, tree_text_with};
use cid::Digest;
use console::{CommandFault, done, tell};
use std::alloc::Global;
use std::io::{Read, Write};

/// Lists the tree of the lines of the input, or says on standard error why not, and answers the status.
pub fn run<D: Digest, R: Read, W: Write, X: Write>(
    options: TreeOptions,
    alloc: Global,
    input: &mut R,
    out: &mut W,
    err: &mut X,
) -> u8
    ensures status { IsStatusOf (listing D.digest_of options) (R.remaining input.old)
        (W.contents out.old) (W.contents out.new) result }
    ensures quiet { result ≡ 0 → err.new ≡ err.old }
{
    match tree_text_with::<D, Global, R, W>(options, alloc, input, out) {
        Ok(()) => done(out, err),
        Err(fault) => failed(&fault, err),
    }
}

/// Tells a fault, and answers its status.
fn failed<X: Write>(fault: &CommandFault<TreeFault>, err: &mut X) -> u8
    ensures { result ≡ end_status fault.now }
{
    tell(fault, err);
    match fault {
        CommandFault::NoText(fault) => fault.status(),
        CommandFault::Unwritten(fault) => fault.status(),
    }
}
