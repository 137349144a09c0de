//! Notices through a queue, from many senders to one taker, each in a thread of its own.
ghost use Rattle.std.specs.Prelude.{◌≡◌, ◌<◌, [], length, All};

use crate::watch::Watch;
use cid::{Cid, Sha256};
use notices::{Feed, Notice, Queue, SendPass, Sender};
use std::alloc::{AllocError, Global};
use std::sync::Wait;
use std::thread;
use std::thread::Threads;
use std::time::Clock;

/// How many notices the queue has room for.
const ROOM: usize = 1024;

/// A sender that numbers its notices.
#[derive(Drop)]
struct Numbering<'a> {
    sender: Sender<'a>,
    sent: u64,
    ghost counted: { sent ≡ length sender.pass.sent },
}

impl<'a> Numbering<'a> {
    fn new(queue: &'a Queue, pass: SendPass) -> Numbering<'a>
        requires queue { pass.queue_id ≡ queue.now.queue_id }
        requires fresh { pass.sent ≡ [] }
        ensures { result.sender.pass.queue_id ≡ queue.now.queue_id }
    {
        Numbering {
            sender: queue.sender(pass),
            sent: 0,
        }
    }

    /// Pushes the next notice, and says whether there was room for it.
    fn push_next<R: Wait>(&mut self, rt: &R, root: Cid) -> bool
        ensures { self.new.sender.pass.queue_id ≡ self.old.sender.pass.queue_id }
    {
        let Some(seq) = self.sent.checked_add(1) else {
            return false;
        };
        let notice = Notice {
            writer: self.sender.writer(),
            seq,
            repo: 0,
            number: seq,
            root,
        };
        match self.sender.push(rt, notice) {
            Ok(()) => {
                self.sent = seq;
                true
            }
            Err(_) => false,
        }
    }
}

/// Sends so many notices, each as soon as there is room.
fn send<R: Wait>(rt: &R, queue: &Queue, pass: SendPass, count: u64, root: Cid) -> u64
    requires { (pass.queue_id ≡ queue.now.queue_id) × (pass.sent ≡ []) }
{
    let mut sender = Numbering::new(queue, pass);
    for _ in rt.forever() {
        if sender.sent == count {
            break;
        }
        if !sender.push_next(rt, root) {
            thread::yield_now();
        }
    }
    sender.sender.refused()
}

/// What was received.
#[derive(Clone, Copy, Drop)]
struct Received {
    notices: u64,
    sum: u64,
}

/// Takes so many notices.
fn take<R: Wait>(rt: &R, queue: &Queue, feed: Feed, count: u64) -> Received
    requires { feed.queue_id ≡ queue.now.queue_id }
{
    let mut taker = queue.taker(feed);
    let mut received = Received { notices: 0, sum: 0 };
    for _ in rt.forever() {
        if received.notices == count {
            break;
        }
        match taker.pop(rt) {
            Some(notice) => {
                received.notices = received.notices.wrapping_add(1);
                received.sum = received.sum.wrapping_add(notice.seq);
            }
            None => thread::yield_now(),
        }
    }
    received
}

/// All senders send and the taker takes, at once.
fn run<R: Threads + Wait + Sync>(
    rt: &R,
    alloc: Global,
    queue: &Queue,
    passes: Vec<SendPass>,
    feed: Feed,
    each: u64,
) -> Result<Received, AllocError>
    requires passes { All (λ p. (p.queue_id ≡ queue.now.queue_id) × (p.sent ≡ [])) passes.items }
    requires feed { feed.queue_id ≡ queue.now.queue_id }
{
    let root = Cid::of::<Sha256>(b"");
    let all = each.wrapping_mul(passes.len() as u64);
    let (sent, received) = thread::join(
        rt,
        move ||
            requires { All (λ p. (p.queue_id ≡ queue.now.queue_id) × (p.sent ≡ [])) passes.items }
        {
            thread::map_vec(
                rt,
                passes,
                &|pass: SendPass|
                    requires { (pass.queue_id ≡ queue.now.queue_id) × (pass.sent ≡ []) }
                { send(rt, queue, pass, each, root) },
            )
        },
        move ||
            requires { feed.queue_id ≡ queue.now.queue_id }
        { take(rt, queue, feed, all) },
    );
    sent?;
    Ok(received)
}

/// Notices that were sent and received some times.
#[derive(Clone, Copy, Drop)]
pub struct Told {
    pub received: u64,
    /// The sum of their `seq`.
    pub sum: u64,
    /// Nanoseconds, of the quickest time.
    pub least: u128,
}

/// Sends so many notices by so many senders, so many times.
pub fn measure<R: Threads + Wait + Sync + Clock>(
    rt: &R,
    alloc: Global,
    count: u32,
    senders: u32,
    rounds: u32,
) -> Result<Told, AllocError> {
    let each = u64::from(count / senders.max(1));
    let mut told = Told {
        received: 0,
        sum: 0,
        least: u128::MAX,
    };
    for _ in 0..rounds {
        let (received, nanos) = round(rt, alloc, senders, each)?;
        told.least = told.least.min(nanos);
        told.received = received.notices;
        told.sum = received.sum;
    }
    Ok(told)
}

/// One round, in which each sender sends so many notices, and its nanoseconds.
fn round<R: Threads + Wait + Sync + Clock>(
    rt: &R,
    alloc: Global,
    senders: u32,
    each: u64,
) -> Result<(Received, u128), AllocError> {
    let (queue, passes, feed) = Queue::open(alloc, senders, ROOM)?;
    let watch = Watch::start(rt);
    let received = run(rt, alloc, &queue, passes, feed, each)?;
    Ok((received, watch.nanos(rt)))
}
