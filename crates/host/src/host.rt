//! The host, and its parts.

ghost use Rattle.std.specs.Prelude.{◌≡◌, ◌≤◌, length, vec_len, vec_capacity};
ghost use Rattle.boxcar.specs.Table.{Shows};
ghost use Rattle.host.specs.Fitting.{AreTablesFit, CoreFits};
ghost use Rattle.host.specs.Versions.{IsVersion};
ghost use Rattle.host.specs.Views.{IsSeatOf, beginning};

use crate::seat::Seat;
use crate::version::{Receipt, Shelf, Version};
use crate::writer::Writer;
use cid::Digest;
use ended::{Feed, Taker};
use fitting::element;
use notices::Queue;
use repo::{Core, Repository, end_all};
use std::alloc::{Allocator, Global};
use std::marker::Model;
use std::slice::from_ref;
use store::{SHARDS, Shard, Shards};

/// Many repositories, each behind its own lock, the shards with their blocks, the queue of notices, and the published versions.
///
/// Threads share it by reference. A call takes the lock of its repository first, and then that of one shard at a time. One that
/// is dropped gives its blocks back, as one that closes does.
///
/// A contract sees its queue, its published versions, how many repositories it has, and how many writes each may have.
pub struct Host<D: Digest, const B: u8, A: Allocator + Clone = Global> {
    pub(crate) queue: Queue<A>,
    pub(crate) repositories: Vec<Repository<D, B, A>, A>,
    pub(crate) limit: usize,
    pub(crate) shards: Shards<D, A>,
    // for the cores, at the close
    pub(crate) room: Vec<Core<D, B, A>, A>,
    pub(crate) shelf: Shelf<D, B, A>,
}

impl<D: Digest, const B: u8, A: Allocator + Clone> Model for Host<D, B, A> {
    ghost use Rattle.std.specs.Prelude.{◌≡◌, ◌≤◌, length, vec_len, vec_capacity};
    ghost use Rattle.host.specs.Views.{HostView};

    ghost Value = { HostView };

    ghost view = { λ h. record {
      queue = h.queue;
      shelf = h.shelf;
      repos = length h.repositories.items;
      limit = h.limit;
    } };

    ghost invariant = { λ h. (vec_len h.room ≡ 0) × (vec_len h.repositories ≤ vec_capacity h.room)
        × (1 ≤ length h.repositories.items) × (length h.repositories.items ≤ 1024) };
}

/// A host that was opened: a seat for each writer, in the order of their numbers, and the feed of its queue.
#[derive(Drop)]
pub struct Opened<D: Digest, const B: u8, A: Allocator + Clone = Global> {
    /// The host.
    pub host: Host<D, B, A>,
    /// The seat of each writer, at the place of its number.
    pub seats: Vec<Seat<A>, A>,
    /// The feed.
    pub feed: Feed<A>,
}

impl<D: Digest, const B: u8, A: Allocator + Clone> Host<D, B, A> {
    /// How many repositories there are.
    pub fn repos(&self) -> usize
        ensures repos { result ≡ self.now.repos }
        ensures few { result ≤ 1024 }
    {
        self.repositories.len()
    }

    /// What stands behind its locks fits in memory, a core and the tables of the shards. It does nothing: whoever is lent a
    /// core, or takes the host apart, has to know this before.
    pub fn fits_in_memory(&self)
        ensures core { CoreFits D.row B.row A.row D.Digest A.Allocator }
        ensures tables { AreTablesFit D.row A.row D.Digest A.Allocator }
    {
        let _ = element(&self.repositories, 0);
    }

    /// The writer of this seat, which must be of this host. It takes no memory.
    pub fn writer(&self, seat: Seat<A>) -> Writer<'_, D, B, A>
        requires { IsSeatOf self.now seat }
        ensures { result ≡ beginning self.now seat }
    {
        let Seat { pass, kept, seen } = seat;
        Writer {
            host: self,
            hosts: from_ref(self),
            sender: self.queue.sender(pass),
            kept,
            last: 0,
            seen,
        }
    }

    /// The one that takes notices, by this feed, which must be of this host. It takes no memory.
    pub fn taker(&self, feed: Feed<A>) -> Taker<'_, A>
        requires { feed.queue_id ≡ self.now.queue.queue_id }
        ensures { result ≡ feed }
    {
        feed.taker(&self.queue)
    }

    /// The version of a receipt, which must be of this host: the same for good, on any thread. It takes no lock and no memory.
    pub fn version<'a>(&'a self, receipt: &Receipt<D, B, A>) -> &'a Version<A>
        requires { Shows self.now.shelf receipt.now }
        ensures value { result.now ≡ receipt.now.value }
        ensures lawful { IsVersion D.digest_of B result.now }
    {
        self.shelf.version(receipt)
    }
}

/// The cores, out of their locks, in order. There is room for all of them.
fn take_out<D: Digest, const B: u8, A: Allocator>(
    repositories: Vec<Repository<D, B, A>, A>,
    mut room: Vec<Core<D, B, A>, A>,
) -> Vec<Core<D, B, A>, A>
    requires empty { vec_len room ≡ 0 }
    requires enough { vec_len repositories ≤ vec_capacity room }
    ensures { vec_len result ≡ vec_len repositories }
{
    let mut left = repositories.into_iter();
    while let Some(repository) = left.next() {
        let Repository { lock } = repository;
        room.push_reserved(lock.into_inner());
    }
    left.destroy_empty();
    room
}

impl<D: Digest, const B: u8, A: Allocator + Clone> Host<D, B, A> {
    /// The queue, the cores in order, and the tables of the shards, out of their locks. It takes no memory.
    ///
    /// They are what the close of a host compares.
    pub fn into_parts(self) -> (Queue<A>, Vec<Core<D, B, A>, A>, [Shard<D, A>; SHARDS])
        ensures queue { result.0 ≡ self.queue }
        ensures cores { length result.1.items ≡ self.repos }
    {
        let Host {
            queue,
            repositories,
            limit: _,
            shards,
            room,
            shelf: _,
        } = self;
        let _ = element(&repositories, 0);
        (queue, take_out(repositories, room), shards.tables())
    }
}

impl<D: Digest, const B: u8, A: Allocator + Clone> Drop for Host<D, B, A> {
    fn drop(self) {
        self.fits_in_memory();
        let (_, cores, tables) = self.into_parts();
        end_all(cores, tables);
    }
}
