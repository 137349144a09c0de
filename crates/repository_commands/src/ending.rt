//! How a command ends: its text was written, or the fault is told; to the exit status.
ghost use Rattle.std.specs.Prelude.{◌≡◌, ◌⊎◌, List, ℕ, Option, IfErr, OnOk};
ghost use Rattle.repository_commands.specs.Faults.{command_status};
ghost use Rattle.repository_commands.specs.Outcomes.{IsOutcome, IsStatusOf, Texts};

use crate::fault::TextFault;
use cid::Digest;
use console::{CommandFault, DONE, IO_FAILED, done, tell};
use std::alloc::Allocator;
use std::io::Write;

/// The exit status of a command that ended so: what was written reaches the writer's end, and a fault is told on standard
/// error.
pub fn status_of<D: Digest, A: Allocator, W: Write, X: Write>(
    ended: Result<(), CommandFault<TextFault<D, A>>>,
    out: &mut W,
    err: &mut X,
) -> u8
    ensures told { IfErr ended (λ e. result ≡ command_status e) }
    ensures done { OnOk ended ((result ≡ DONE) ⊎ (result ≡ IO_FAILED)) }
    ensures quiet { result ≡ DONE → err.new ≡ err.old }
    ensures status { (text : Texts) (input old : Option (List ℕ))
        → IsOutcome text input old (W.contents out.old) ended
        → IsStatusOf text input old (W.contents out.new) result }
{
    match ended {
        Ok(()) => done(out, err),
        Err(fault) => {
            tell(&fault, err);
            match fault {
                CommandFault::NoText(fault) => fault.status(),
                CommandFault::Unwritten(fault) => fault.status(),
            }
        }
    }
}
