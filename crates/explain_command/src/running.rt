//! The run of `explain`, to the exit status.
ghost use Rattle.std.specs.Prelude.{◌≡◌};
ghost use Rattle.explain_command.specs.Ends.{IsStatusOf};
ghost use Rattle.explain_command.specs.Explained.{explanation, word_of};

use crate::text::explanation_of;
use crate::words::ExplainCommand;
use console::{FAULTY, done, no_memory, tell, unwritten, write_whole};
use std::alloc::Global;
use std::io::Write;

/// Writes what there is to say of the name, or the names of all faults, and answers the exit status.
///
/// At 1 no fault has the name, which standard error is told, and nothing was written. At 3 memory was refused, and at 4
/// writing failed.
pub fn run<W: Write, X: Write>(
    command: ExplainCommand<'_>,
    alloc: Global,
    out: &mut W,
    err: &mut X,
) -> u8
    ensures status { IsStatusOf (explanation (word_of command.entry.name))
        (W.contents out.old) (W.contents out.new) result }
    ensures quiet { result ≡ 0 → err.new ≡ err.old }
{
    let Ok(text) = explanation_of(alloc, command.name) else {
        return no_memory(err);
    };
    if text.is_empty() {
        return unknown(err);
    }
    match write_whole(out, &text) {
        Ok(()) => done(out, err),
        Err(fault) => unwritten(fault, err),
    }
}

/// Tells that no fault has the name, and answers the status.
fn unknown<X: Write>(err: &mut X) -> u8
    ensures { result ≡ FAULTY }
{
    tell(
        &"no fault has this name; explain without a name lists them",
        err,
    );
    FAULTY
}
