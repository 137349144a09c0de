//! Messages that aren't followed.

ghost use Rattle.std.specs.Prelude.{◌<◌, ◌≤◌, length};

use crate::fixtures::{A, B, Posts, change, followed, message_of, opened, shard};
use batches::RepoFault;
use cid::{Digest, Sha256};
use commit_events::EventFault;
use event_blocks::BlocksFault;
use event_following::FollowingFault;
use refusing::Refusing;
use repo::Core;
use repo_fixtures::batch::Step;
use repo_fixtures::cores::{apply_steps, end};
use repo_fixtures::ends::Ended;
use std::alloc::{AllocError, Allocator, Global};
use store::Shard;

/// How a message is followed.
#[derive(Clone, Copy, PartialEq, Eq)]
enum End {
    Followed,
    Message(EventFault),
    OtherRoot,
    OtherValue(usize),
    WritesFull(usize),
    RevOrder(usize),
    Refused,
    NoMemory,
    /// It isn't, and the mirror is another one than before.
    Wrong,
}

/// How a message ends.
fn end_of<G: Digest, const BITS: u8, M: Allocator + Copy>(
    alloc: M,
    shard: &mut Shard<G, M>,
    mirror: &mut Core<G, BITS, M>,
    message: &[u8],
) -> End
    requires { 1 ≤ BITS }
{
    let Some(answer) = followed(alloc, shard, mirror, message) else {
        return End::Wrong;
    };
    match &answer {
        Ok(_) => End::Followed,
        Err(FollowingFault::Message(fault)) => End::Message(*fault),
        Err(FollowingFault::OtherRoot) => End::OtherRoot,
        Err(FollowingFault::OtherValue(place)) => End::OtherValue(*place),
        Err(FollowingFault::Refused(place, RepoFault::WritesFull)) => End::WritesFull(*place),
        Err(FollowingFault::Refused(place, RepoFault::RevOrder)) => End::RevOrder(*place),
        Err(FollowingFault::Refused(_, _)) => End::Refused,
        Err(FollowingFault::NoMemory) => End::NoMemory,
    }
}

/// The messages of a batch that creates two records, and of one that updates the first and deletes the second.
fn messages<G: Digest, const BITS: u8, M: Allocator + Copy>(
    alloc: M,
    shard: &mut Shard<G, M>,
    core: &mut Core<G, BITS, M>,
) -> Option<(Vec<u8, M>, Vec<u8, M>)>
    requires { 1 ≤ BITS }
{
    let first = message_of(
        alloc,
        shard,
        core,
        1,
        &[Step::Create(b"posts/10", A), Step::Create(b"posts/11", B)],
        &[
            change(b"posts/10", None, Some(A)),
            change(b"posts/11", None, Some(B)),
        ],
    )?;
    let second = message_of(
        alloc,
        shard,
        core,
        2,
        &[Step::Update(b"posts/10", B), Step::Delete(b"posts/11")],
        &[
            change(b"posts/10", Some(A), Some(B)),
            change(b"posts/11", Some(B), None),
        ],
    )?;
    Some((first, second))
}

/// The message with the byte so far behind the first place of these bytes one higher or one lower.
fn spoilt(alloc: Global, message: &[u8], bytes: &[u8], behind: usize) -> Result<Vec<u8>, AllocError>
    requires { 0 < length bytes.now }
{
    let mut out = Vec::from_slice(alloc, message)?;
    let Some(place) = message.windows(bytes.len()).position(|part| part == bytes) else {
        return Ok(out);
    };
    if let Some(byte) = out.get_mut(place.saturating_add(behind)) {
        *byte ^= 1;
    }
    Ok(out)
}

/// How a spoilt message ends.
fn end_of_spoilt(
    alloc: Global,
    shard: &mut Shard<Sha256>,
    mirror: &mut Posts<Global>,
    message: &[u8],
    bytes: &[u8],
    behind: usize,
) -> End
    requires { 0 < length bytes.now }
{
    match spoilt(alloc, message, bytes, behind) {
        Ok(message) => end_of(alloc, shard, mirror, &message),
        Err(_) => End::NoMemory,
    }
}

/// Whether each message ends as it should: one behind a gap, the first, spoilt ones, the first again, and the second.
fn in_turn(
    alloc: Global,
    shard: &mut Shard<Sha256>,
    mirror: &mut Posts<Global>,
    first: &[u8],
    second: &[u8],
) -> bool {
    let misnamed = End::Message(EventFault::Blocks(BlocksFault::Misnamed));
    end_of(alloc, shard, mirror, second) == End::Message(EventFault::OtherPrevious)
        // a path
        && end_of_spoilt(alloc, shard, mirror, first, b"posts/11", 6) == End::OtherRoot
        // a record
        && end_of_spoilt(alloc, shard, mirror, first, A, 6) == misnamed
        && end_of(alloc, shard, mirror, first) == End::Followed
        && end_of(alloc, shard, mirror, first) == End::Message(EventFault::OtherPrevious)
        // the record that the second operation tells before it
        && end_of_spoilt(alloc, shard, mirror, second, b"posts/11\x64prev", 30)
            == End::OtherValue(1)
        && end_of(alloc, shard, mirror, second) == End::Followed
}

#[test]
fn each_refusal(rt: HostRuntime) {
    let alloc = rt.alloc();
    let (mut own, mut other) = (shard(alloc), shard(alloc));
    let mut core: Posts<_> = opened(&rt, alloc, &mut own, 100);
    let mut mirror: Posts<_> = opened(&rt, alloc, &mut other, 100);
    let right = match messages(alloc, &mut own, &mut core) {
        Some((first, second)) => in_turn(alloc, &mut other, &mut mirror, &first, &second),
        None => false,
    };
    end(&mut own, core);
    end(&mut other, mirror);
    assert!(rt; right);
}

/// The messages of a batch that leaves the records that there are, of one that is told without its operation, and of one behind
/// the first.
fn empty_messages(
    alloc: Global,
    shard: &mut Shard<Sha256>,
    core: &mut Posts<Global>,
) -> Option<(Vec<u8>, Vec<u8>)> {
    let unchanged = message_of(
        alloc,
        shard,
        core,
        3,
        &[Step::Put(b"posts/10", B)],
        &[change(b"posts/10", Some(B), Some(B))],
    )?;
    let untold = message_of(alloc, shard, core, 4, &[Step::Update(b"posts/10", A)], &[])?;
    Some((unchanged, untold))
}

/// Whether a mirror follows two messages and one without operations, also twice, and not one whose operation is left out.
fn follows_empty(
    alloc: Global,
    shard: &mut Shard<Sha256>,
    mirror: &mut Posts<Global>,
    whole: (&[u8], &[u8]),
    empty: (&[u8], &[u8]),
) -> bool {
    end_of(alloc, shard, mirror, whole.0) == End::Followed
        && end_of(alloc, shard, mirror, empty.0) == End::Message(EventFault::OtherPrevious)
        && end_of(alloc, shard, mirror, whole.1) == End::Followed
        && end_of(alloc, shard, mirror, empty.0) == End::Followed
        && end_of(alloc, shard, mirror, empty.0) == End::Followed
        && end_of(alloc, shard, mirror, empty.1) == End::OtherRoot
        && mirror.number() == 4
}

#[test]
fn messages_without_operations(rt: HostRuntime) {
    let alloc = rt.alloc();
    let (mut own, mut other) = (shard(alloc), shard(alloc));
    let mut core: Posts<_> = opened(&rt, alloc, &mut own, 100);
    let mut mirror: Posts<_> = opened(&rt, alloc, &mut other, 100);
    let whole = messages(alloc, &mut own, &mut core);
    let empty = empty_messages(alloc, &mut own, &mut core);
    let right = match (&whole, &empty) {
        (Some((first, second)), Some((unchanged, untold))) => follows_empty(
            alloc,
            &mut other,
            &mut mirror,
            (first, second),
            (unchanged, untold),
        ),
        _ => false,
    };
    end(&mut own, core);
    end(&mut other, mirror);
    assert!(rt; right);
}

#[test]
fn a_full_mirror(rt: HostRuntime) {
    let alloc = rt.alloc();
    let (mut own, mut other) = (shard(alloc), shard(alloc));
    let mut core: Posts<_> = opened(&rt, alloc, &mut own, 100);
    let mut mirror: Posts<_> = opened(&rt, alloc, &mut other, 3);
    let right = match messages(alloc, &mut own, &mut core) {
        Some((first, second)) => {
            end_of(alloc, &mut other, &mut mirror, &first) == End::Followed
                && end_of(alloc, &mut other, &mut mirror, &second) == End::WritesFull(1)
        }
        None => false,
    };
    end(&mut own, core);
    end(&mut other, mirror);
    assert!(rt; right);
}

/// Whether a mirror takes a batch and one that undoes it, both later than the message of these bytes, and then refuses that.
fn refuses_earlier(
    alloc: Global,
    shard: &mut Shard<Sha256>,
    mirror: &mut Posts<Global>,
    message: &[u8],
) -> bool {
    apply_steps(alloc, shard, mirror, 8, &[Step::Create(b"posts/12", A)]) == Ended::Accepted(1)
        && apply_steps(alloc, shard, mirror, 9, &[Step::Delete(b"posts/12")]) == Ended::Accepted(2)
        && end_of(alloc, shard, mirror, message) == End::RevOrder(0)
}

#[test]
fn a_later_mirror(rt: HostRuntime) {
    let alloc = rt.alloc();
    let (mut own, mut other) = (shard(alloc), shard(alloc));
    let mut core: Posts<_> = opened(&rt, alloc, &mut own, 100);
    let mut mirror: Posts<_> = opened(&rt, alloc, &mut other, 100);
    let right = match messages(alloc, &mut own, &mut core) {
        Some((first, _second)) => refuses_earlier(alloc, &mut other, &mut mirror, &first),
        None => false,
    };
    end(&mut own, core);
    end(&mut other, mirror);
    assert!(rt; right);
}

/// Memory that refuses requests.
type Heap<'h> = &'h Refusing<Global>;

/// Whether each request that is refused is told and leaves the mirror as it was, up to the message that is followed.
fn tells_each<'h, G: Digest, const BITS: u8>(
    heap: Heap<'h>,
    shard: &mut Shard<G, Heap<'h>>,
    mirror: &mut Core<G, BITS, Heap<'h>>,
    message: &[u8],
) -> bool
    requires { 1 ≤ BITS }
{
    for number in 1..5_000u64 {
        heap.refuse(number);
        let end = end_of(heap, shard, mirror, message);
        heap.refuse(0);
        match end {
            End::NoMemory => {}
            End::Followed => return number > 50,
            _ => return false,
        }
    }
    false
}

#[test]
fn each_want_of_memory(rt: HostRuntime) {
    let heap = Refusing::new(rt.alloc());
    let right = {
        let (mut own, mut other) = (shard(&heap), shard(&heap));
        let mut core: Posts<_> = opened(&rt, &heap, &mut own, 100);
        let mut mirror: Posts<_> = opened(&rt, &heap, &mut other, 100);
        let right = match messages(&heap, &mut own, &mut core) {
            Some((first, _second)) => tells_each(&heap, &mut other, &mut mirror, &first),
            None => false,
        };
        end(&mut own, core);
        end(&mut other, mirror);
        right
    };
    assert!(rt; right);
}
