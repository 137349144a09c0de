//! What one worker does: its own lines, in their order.

ghost use Rattle.std.specs.Prelude.{◌≡◌, IfOk};
ghost use Rattle.ended.specs.Ending.{IsEndedAt};
ghost use Rattle.host.specs.Views.{IsSeatOf};
ghost use Rattle.scripts.specs.Calls.{IsCall};
ghost use Rattle.scripts.specs.Working.{IsWork};

use crate::gate::Gate;
use crate::script::{Answer, Call, Line};
use cid::Digest;
use ended::Ended;
use host::{Host, Seat, Writer};
use std::alloc::{AllocError, Global};
use std::collections::VecDeque;
use std::sync::Wait;

/// What one worker did: how its writer ended, and an answer for each of its lines, in their order.
#[derive(Drop)]
pub(crate) struct Done<D: Digest> {
    pub(crate) ended: Ended,
    pub(crate) answers: VecDeque<Answer<D>>,
}

/// Does a line.
fn do_line<D: Digest, const B: u8, R: Wait>(
    rt: &R,
    alloc: Global,
    writer: &mut Writer<'_, D, B>,
    line: &Line,
) -> Answer<D>
    ensures call { IsCall D.digest_of B writer.old line.now.repo line.now.call result writer.new }
    ensures host { writer.new.host ≡ writer.old.host }
{
    let repo = line.repo as usize;
    match &line.call {
        Call::Apply(stamp, writes) => match writer.apply(rt, alloc, repo, stamp, writes) {
            Ok(notice) => Answer::Accepted(notice),
            Err(fault) => Answer::Refused(fault),
        },
        Call::Get(key) => match writer.get(rt, alloc, repo, key) {
            Ok(Some(record)) => Answer::Found(record),
            Ok(None) => Answer::Absent,
            Err(fault) => Answer::Refused(fault),
        },
    }
}

/// Does the lines of this worker by the writer of this seat, in their order, with the gate round each.
pub(crate) fn work<D: Digest, const B: u8, G: Gate, R: Wait>(
    rt: &R,
    alloc: Global,
    host: &Host<D, B>,
    seat: Seat,
    worker: usize,
    gate: &G,
    lines: &[Line],
) -> Result<Done<D>, AllocError>
    requires { IsSeatOf host.now seat }
    ensures done { IfOk result (IsWork D.digest_of B host.now seat worker lines.now) }
    ensures ended { IfOk result
        (λ d. IsEndedAt host.now.queue.queue_id host.now.repos d.ended) }
{
    let mut writer = host.writer(seat);
    let mut answers = VecDeque::new(alloc);
    for line in lines {
        if line.worker as usize != worker {
            continue;
        }
        gate.before(line.number);
        let answer = do_line(rt, alloc, &mut writer, line);
        gate.after(line.number);
        answers.push_back(answer)?;
    }
    Ok(Done {
        ended: writer.end(),
        answers,
    })
}
