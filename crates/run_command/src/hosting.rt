//! A host that does the lines of a script and closes.
ghost use Rattle.std.specs.Prelude.{◌≡◌, ◌<◌, All, Err, IfErr, IfOk};
ghost use Rattle.run_command.specs.Faults.{IsOfHost};
ghost use Rattle.run_command.specs.Reports.{IsReport, IsUnclosed};

use crate::fault::RunFault;
use crate::report::report_of;
use crate::settings::Settings;
use cid::Digest;
use host::{Host, Opened};
use host_close::close;
use scripts::{Line, OpenGate, Report, run_script};
use std::alloc::Global;
use std::sync::Wait;
use std::thread::Threads;
use store::TableKey;

/// The report of a run of these lines: a host is opened under this key, its workers do the lines, each its own in a thread
/// of its own, and the host closes.
pub(crate) fn report_of_lines<D: Digest + Send + Sync, T: Threads + Wait + Sync>(
    rt: &T,
    alloc: Global,
    key: TableKey,
    settings: &Settings,
    lines: &[Line],
) -> Result<Vec<u8>, RunFault>
    requires { All (λ l. l.worker < settings.now.workers) lines.now }
    ensures report { IfOk result (λ text.
        IsReport D D.digest_of settings.now lines.now text.items) }
    ensures uneven { result ≡ Err RunFault.Uneven
        → IsUnclosed D D.digest_of settings.now lines.now }
    ensures kind { IfErr result IsOfHost }
{
    let Ok(opened) = Host::<D, 2>::open(rt, alloc, settings.limits(), key) else {
        // all limits are in their ranges, so memory was refused
        return Err(RunFault::NoMemory);
    };
    let Opened { host, seats, feed } = opened;
    let Report { answers, ended } = run_script(rt, alloc, &host, seats, &OpenGate, lines)?;
    match close(host, ended, feed) {
        Ok(mut closed) => {
            let text = report_of(rt, alloc, settings, lines, &answers, &mut closed)?;
            Ok(text)
        }
        Err(_) => Err(RunFault::Uneven),
    }
}
