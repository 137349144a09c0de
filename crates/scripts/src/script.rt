//! The lines of a script, and what comes of them.

ghost use Rattle.std.specs.Prelude.{◌<◌, ◌↔◌, All, IsTrue};

use batches::{Stamp, Write};
use cid::Digest;
use ended::Ended;
use host::HostFault;
use notices::Notice;

/// What a line of a script calls.
#[derive(Drop)]
pub enum Call {
    /// `Writer::apply` with this stamp and these writes.
    Apply(Stamp, Vec<Write>),
    /// `Writer::get` with this key.
    Get(Vec<u8>),
}

/// A line of a script.
#[derive(Drop)]
pub struct Line {
    /// The line's number, which the gate is given and a report shows. No answer depends on it.
    pub number: usize,
    /// The worker that does the line: the place of its seat, from 0.
    pub worker: u32,
    /// The repository's number.
    pub repo: u32,
    /// What is called.
    pub call: Call,
}

/// What a line was answered.
#[derive(Drop)]
pub enum Answer<D: Digest> {
    /// The batch was accepted, and this is told of it.
    Accepted(Notice),
    /// The call was refused, and its writer is as before.
    Refused(HostFault<D>),
    /// The key's record.
    Found(Vec<u8>),
    /// The key has no record.
    Absent,
}

/// What came of a script.
#[derive(Drop)]
pub struct Report<D: Digest> {
    /// One answer a line, in the order of the lines.
    pub answers: Vec<Answer<D>>,
    /// Each writer as it ended, in the order of the seats.
    pub ended: Vec<Ended>,
}

/// Whether each line's worker is below this count, which `run_script` asks of the count of seats.
pub fn have_workers(lines: &[Line], workers: usize) -> bool
    ensures { IsTrue result ↔ All (λ l. l.worker < workers) lines.now }
{
    for line in lines {
        if line.worker as usize >= workers {
            return false;
        }
    }
    true
}
