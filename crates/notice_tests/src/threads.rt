//! Writers and the taker, each in a thread of its own.
ghost use Rattle.std.specs.Prelude.{◌≡◌, ◌<◌, [], IfOk, All};

use crate::writer::{Pushed, Writer, notice};
use notices::{Feed, Notice, Queue, SendPass};
use std::alloc::{AllocError, Global};
use std::sync::Wait;
use std::sync::atomic::{AtomicU64, Ordering};
use std::test::Fail;
use std::thread;
use std::thread::Threads;

/// How often the taker tries. It stops before, once all writers have ended.
const TURNS: u64 = 20_000_000;

/// A writer that ended, and the notices that it kept.
#[derive(Drop)]
struct Ended {
    pass: SendPass,
    kept: Vec<Notice>,
}

/// What became of all notices.
#[derive(Drop)]
struct Told {
    received: Vec<Notice>,
    left: Vec<Notice>,
    kept: Vec<Notice>,
}

/// Pushes the kept notices in order until one is given back.
fn flush<R: Wait>(rt: &R, writer: &mut Writer<'_>, kept: &mut Vec<Notice>)
    ensures { writer.new.sender.pass.queue_id ≡ writer.old.sender.pass.queue_id }
{
    for _ in 0..kept.len() {
        let Some(first) = kept.first() else {
            break;
        };
        if writer.push(rt, *first) != Pushed::Put {
            break;
        }
        kept.remove(0);
    }
}

/// Makes `count` notices and pushes each as soon as there is room; after the last it tries so many times more.
fn write<R: Wait>(
    rt: &R,
    alloc: Global,
    queue: &Queue,
    pass: SendPass,
    count: u64,
    patience: u64,
) -> Ended
    requires { (pass.queue_id ≡ queue.now.queue_id) × (pass.sent ≡ []) }
    ensures { result.pass.queue_id ≡ queue.now.queue_id }
{
    let mut writer = Writer::new(queue, pass);
    let mut kept = Vec::new(alloc);
    for seq in 1..=count {
        if kept.push(notice(writer.writer(), seq)).is_err() {
            break;
        }
        flush(rt, &mut writer, &mut kept);
        if !kept.is_empty() {
            thread::yield_now();
        }
    }
    for _ in 0..patience {
        if kept.is_empty() {
            break;
        }
        thread::yield_now();
        flush(rt, &mut writer, &mut kept);
    }
    Ended {
        pass: writer.end(),
        kept,
    }
}

/// Takes until all writers have ended.
fn take_all<R: Wait>(
    rt: &R,
    alloc: Global,
    queue: &Queue,
    feed: Feed,
    ended: &AtomicU64,
    writers: u64,
) -> (Feed, Vec<Notice>)
    requires { feed.queue_id ≡ queue.now.queue_id }
    ensures { result.0.queue_id ≡ queue.now.queue_id }
{
    let mut taker = queue.taker(feed);
    let mut received = Vec::new(alloc);
    for _ in 0..TURNS {
        if ended.load(Ordering::SeqCst) == writers || received.reserve(1).is_err() {
            break;
        }
        match taker.pop(rt) {
            Some(notice) => received.push_reserved(notice),
            None => thread::yield_now(),
        }
    }
    (taker.end(), received)
}

/// Each writer writes in a thread of its own.
fn write_all<R: Threads + Wait + Sync>(
    rt: &R,
    alloc: Global,
    queue: &Queue,
    passes: Vec<SendPass>,
    count: u64,
    patience: u64,
    ended: &AtomicU64,
) -> Result<Vec<Ended>, AllocError>
    requires { All (λ p. (p.queue_id ≡ queue.now.queue_id) × (p.sent ≡ [])) passes.items }
    ensures { IfOk result (λ v. All (λ e. e.pass.queue_id ≡ queue.now.queue_id) v.items) }
{
    thread::map_vec(
        rt,
        passes,
        &|pass: SendPass| -> Ended
            requires { (pass.queue_id ≡ queue.now.queue_id) × (pass.sent ≡ []) }
            ensures { result.pass.queue_id ≡ queue.entry.now.queue_id }
        {
            let done = write(rt, alloc, queue, pass, count, patience);
            ended.fetch_add(1, Ordering::SeqCst);
            done
        },
    )
}

/// The writers write and the taker takes, all at once.
fn run<R: Threads + Wait + Sync>(
    rt: &R,
    alloc: Global,
    queue: &Queue,
    passes: Vec<SendPass>,
    feed: Feed,
    count: u64,
    patience: u64,
) -> (Result<Vec<Ended>, AllocError>, (Feed, Vec<Notice>))
    requires passes { All (λ p. (p.queue_id ≡ queue.now.queue_id) × (p.sent ≡ [])) passes.items }
    requires feed { feed.queue_id ≡ queue.now.queue_id }
    ensures ended { IfOk result.0 (λ v. All (λ e. e.pass.queue_id ≡ queue.now.queue_id) v.items) }
    ensures feed { result.1.0.queue_id ≡ queue.now.queue_id }
{
    let ended = AtomicU64::new(0);
    let done = &ended;
    let writers = passes.len() as u64;
    thread::join(
        rt,
        move ||
            requires { All (λ p. (p.queue_id ≡ queue.now.queue_id) × (p.sent ≡ [])) passes.items }
            ensures { IfOk result (λ v. All
                (λ e. e.pass.queue_id ≡ queue.entry.now.queue_id) v.items) }
        { write_all(rt, alloc, queue, passes, count, patience, done) },
        move ||
            requires { feed.queue_id ≡ queue.now.queue_id }
            ensures { result.0.queue_id ≡ queue.entry.now.queue_id }
        { take_all(rt, alloc, queue, feed, done, writers) },
    )
}

/// Lets each pass join, and takes out what is left.
fn close<R: Wait>(
    rt: &R,
    alloc: Global,
    queue: &Queue,
    ended: Vec<Ended>,
    mut feed: Feed,
    received: Vec<Notice>,
) -> Result<Told, AllocError>
    requires ended { All (λ e. e.pass.queue_id ≡ queue.now.queue_id) ended.items }
    requires feed { feed.queue_id ≡ queue.now.queue_id }
{
    let mut kept = Vec::new(alloc);
    for one in ended {
        let Ended {
            pass,
            kept: mut more,
        } = one;
        queue.join(&mut feed, pass);
        kept.append(&mut more)?;
    }
    queue.look(&mut feed);
    let mut left = Vec::new(alloc);
    for _ in 0..TURNS {
        let Some(notice) = queue.take(rt, &mut feed) else {
            break;
        };
        left.push(notice)?;
    }
    Ok(Told {
        received,
        left,
        kept,
    })
}

impl Told {
    /// How many notices of this writer were received, then left, then kept, if they are 1, 2, .. in this order.
    fn count(&self, writer: u32) -> Option<u64> {
        let mut last = 0;
        for part in [&self.received, &self.left, &self.kept] {
            for one in part.iter().filter(|one| one.writer == writer) {
                if *one != notice(writer, one.seq) || one.seq.checked_sub(1) != Some(last) {
                    return None;
                }
                last = one.seq;
            }
        }
        Some(last)
    }
}

/// So many writers of `count` notices each, and the taker: what became of the notices.
fn tell<R: Threads + Wait + Sync>(
    rt: &R,
    alloc: Global,
    writers: u32,
    count: u64,
    room: usize,
    patience: u64,
) -> Result<Told, AllocError>
    requires { 0 < room }
{
    let (queue, passes, feed) = Queue::open(alloc, writers, room)?;
    let (ended, (feed, received)) = run(rt, alloc, &queue, passes, feed, count, patience);
    close(rt, alloc, &queue, ended?, feed, received)
}

#[test]
fn two_writers_and_the_taker(rt: HostRuntime) -> Result<(), Fail> {
    for patience in [0, 1_000_000] {
        let told = tell(&rt, rt.alloc(), 2, 1000, 16, patience)?;
        let counts = [told.count(0), told.count(1)];
        assert!(rt;
            counts == [Some(1000), Some(1000)],
            "with patience {patience}"
        );
        assert!(rt; told.left.len() <= 16, "more left than there is room for");
        assert!(rt;
            patience == 0 || told.kept.is_empty(),
            "some are still kept"
        );
    }
    Ok(())
}

#[test]
fn sixty_four_writers_and_the_taker(rt: HostRuntime) -> Result<(), Fail> {
    for room in [1, 16] {
        let told = tell(&rt, rt.alloc(), 64, 20, room, 1_000_000)?;
        let whole = (0..64)
            .filter(|writer| told.count(*writer) == Some(20))
            .count();
        assert!(rt;
            whole == 64 && told.kept.is_empty(),
            "{whole} writers with room for {room}"
        );
    }
    Ok(())
}
