//! A script: all lines of a text.
ghost use Rattle.std.specs.Prelude.{◌≡◌, ◌<◌, All, IfOk};
ghost use Rattle.spec.specs.Reading.{Gives};
ghost use Rattle.run_command.specs.Script.{script_in};
ghost use Rattle.run_command.specs.Views.{script_fault_of, view_of_lines};
ghost use Rattle.run_command.specs.declared.script.lines.ScriptFault.TheVariants as faults;

use crate::script::line::line_of;
use console::numbered_lines;
use scripts::Line;
use std::alloc::{AllocError, AllocFailed, Global};
use thiserror::Error;

/// Why a text is no script.
#[derive(Clone, Copy, PartialEq, Eq, Debug, Error)]
pub enum ScriptFault {
    /// The line of this number, from 1, is the first that is no line of a script. Empty lines count.
    #[error("line {0} is no line of a script")]
    BadScript(usize),
    /// Memory was refused.
    #[error("out of memory")]
    NoMemory,
}

impl From<AllocError> for ScriptFault {
    ghost from_gives = { λ _ e. e ≡ faults.NoMemory };

    fn from(_refused: AllocError) -> ScriptFault {
        ScriptFault::NoMemory
    }
}

impl<T: Drop> From<AllocFailed<T>> for ScriptFault {
    ghost from_gives = { λ _ e. e ≡ faults.NoMemory };

    fn from(_refused: AllocFailed<T>) -> ScriptFault {
        ScriptFault::NoMemory
    }
}

/// The lines of a script for so many workers, whose batches all have this DID.
///
/// Lines end at LF or CR LF, and a last line needs no end. An empty line is passed over, and counted. The faults are
/// `ScriptFault::BadScript` with the number of the first faulty line, and `ScriptFault::NoMemory`.
pub fn script_of(
    alloc: Global,
    workers: u32,
    did: &[u8],
    text: &[u8],
) -> Result<Vec<Line>, ScriptFault>
    ensures script { Gives (λ lines. view_of_lines lines.items) script_fault_of result
        (script_in workers did.now text.now) }
    ensures workers { IfOk result (λ lines. All (λ l. l.worker < workers) lines.items) }
{
    let mut lines = Vec::new(alloc);
    for (number, line) in numbered_lines(text) {
        match line_of(alloc, workers, did, number as usize, line)? {
            Some(line) => lines.push(line)?,
            None => return Err(ScriptFault::BadScript(number as usize)),
        }
    }
    Ok(lines)
}
