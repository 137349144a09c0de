//! The close of a host.
//!
//! Once all writers have ended, [`close`] takes a host's cores and the tables of its shards out of their locks, and hands them
//! to `closing::close`, which compares them with each other and with what the writers have seen. It stands apart from the
//! crate `host`, so that neither `host` nor `closing` stands on the other.
//!
//! Not said: that the cores and tables are those that stood behind the host's locks. Tests show it.
#![tactic(auto)]

ghost use Rattle.std.specs.Prelude.{◌≡◌, [], All, IfErr, IfOk, length};
ghost use Rattle.ended.specs.Ending.{IsEndedAt, joined_all};
ghost use Rattle.closing.specs.Settling.{IsSettled, IsUneven};

use cid::Digest;
use closing::{Closed, Uneven};
use ended::{Ended, Feed};
use host::Host;
use std::alloc::Allocator;

/// Takes a host's cores and tables out of their locks, and compares them with each other and with what writers have seen.
///
/// These must be all writers and the feed that `Host::open` gave. Where all agree, it answers the closed host; otherwise
/// `Uneven`, which holds cores, tables and what the writers ended with, and shows in what these don't agree. It takes no
/// memory.
pub fn close<D: Digest, const B: u8, A: Allocator + Clone>(
    host: Host<D, B, A>,
    ended: Vec<Ended<A>, A>,
    feed: Feed<A>,
) -> Result<Closed<D, B, A>, Uneven<D, B, A>>
    requires feed { feed.queue_id ≡ host.queue.queue_id }
    requires fresh { feed.joined ≡ [] }
    requires ended { All (IsEndedAt host.queue.queue_id host.repos) ended.items }
    requires all { length ended.items ≡ feed.made }
    ensures cores { IfOk result (λ c. length c.cores ≡ host.repos) }
    ensures ended { IfOk result (λ c. c.ended ≡ ended.items) }
    ensures joined { IfOk result (λ c. c.feed ≡ joined_all feed ended.items) }
    ensures settled { IfOk result (λ c. IsSettled D.digest_of B c.cores c.tables c.ended) }
    ensures held { IfErr result (λ u. length u.cores ≡ host.repos) }
    ensures same { IfErr result (λ u. u.ended ≡ ended.items) }
    ensures uneven { IfErr result (λ u. IsUneven D.digest_of B u.cores u.tables u.ended
        u.mismatch) }
{
    host.fits_in_memory();
    let (queue, cores, tables) = host.into_parts();
    closing::close(queue, feed, ended, cores, tables)
}
