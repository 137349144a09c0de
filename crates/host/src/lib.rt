//! Many repositories, many writers, and one taker of what they tell.
//!
//! A [`Host`] keeps repositories behind locks of their own, and equal blocks once for all of them. Threads share it by
//! reference:
//!
//! - [`Host::open`] gives a [`Seat`] for each writer and the feed of the queue. A seat goes to the thread that writes, and
//!   `Host::writer` makes a [`Writer`] of it there.
//! - `Writer::apply` accepts a batch or refuses it whole, and tells of it by a notice. `apply_from` does so where the
//!   repository has the root that the caller names, for who signed the batch's commit or wrote a message of it before: where
//!   another writer's batch came between, it is refused. `get` and `list` read, and never show less of a repository than this
//!   writer has seen there.
//! - `Writer::publish` makes a version, which `Host::version` shows for good and without a lock: what is to be read often,
//!   or over a long time, is read by a version.
//! - `Host::read` lends a repository as it is, under its read lock. So the crate `host_exports` writes a repository as one
//!   file, and gives the nodes that prove what a key holds, or which keys changed and how.
//! - `Host::taker` makes the one that takes notices out of the queue. What a full queue doesn't take a writer keeps, in
//!   order, until `apply` or `flush` finds room.
//! - `Writer::end` and the taker's `end` leave what the close wants of all of them (`close` of the crate `host_close`). A host
//!   that has closed tells how many repositories have each block, and what each repository is (the crate `closing`). One that
//!   isn't closed gives its blocks back when it is dropped.
//!
//! # Who waits for whom
//!
//! A call takes the lock of its repository first, and under it that of one shard at a time. None takes those of two
//! repositories.
//!
//! - Writers of one repository wait for each other, and a long batch holds back those that read there. Writers of different
//!   repositories meet in the shards alone, each time for one block.
//! - Those that read a repository share its lock. Whoever comes while a writer waits there waits behind it.
//! - The guard of `read` shares the lock until it goes. So who keeps it holds back the writers of its repository, and those
//!   that come to read there after one of these; nobody elsewhere. Who asks for the same repository meanwhile may wait for
//!   ever.
//! - `version` takes no lock: it has no leave to wait, so that a host behind one lock couldn't offer it. `flush` and the taker
//!   wait for nothing but the queue's own steps, and `into_parts` for nothing.
//!
//! # What is proved
//!
//! Each answer of a writer is right for a lawful list of accepted writes of a repository of this number and this host's
//! limit, of no fewer writes than the writer has seen there; and of such a list is the core that `read` lends. What a call does
//! to a core whose lock it has is said exactly, by the contract of `repo::Core`: an accepted batch leaves the state that its
//! writes and its stamp leave, and where the batch is refused the core is as before. Once the host has closed, each repository
//! is what its accepted writes leave, by the Merkle search tree built from scratch from their records, and each block's count
//! is the number of repositories that have it.
//!
//! No proof says that a lock is got or that a thread runs, nor which lock a call took and what stood behind it. So each call
//! passes over a repository of another number, of another limit, or of fewer writes than were seen. Nor does one say that the
//! repositories and counts of a host that has closed are those that stood behind its locks. Tests show these.
//!
//! ```rust
//! ghost use Rattle.ended.specs.Ending.{IsEndedAt};
//! ghost use Rattle.host.specs.Views.{IsSeatOf};
//!
//! use batches::{Stamp, Write};
//! use cid::{Cid, Sha256};
//! use ended::Ended;
//! use host::{Host, Limits, Opened, Seat};
//! use host_close::close;
//! use std::alloc::{AllocError, Global};
//! use std::process::Abort;
//! use std::sync::Wait;
//! use store::TableKey;
//!
//! /// The key of a post, and its record in DAG-CBOR.
//! const KEY: &[u8] = b"app.bsky.feed.post/3jzfcijpj2z2a";
//!
//! const RECORD: &[u8] = b"\xa1\x64text\x65hello";
//!
//! /// A batch of one put, with the stamp for its commit.
//! fn a_put(alloc: Global) -> Result<(Stamp, Vec<Write>), AllocError> {
//!     let did = Vec::from_slice(alloc, b"did:web:example.com")?;
//!     let rev = Vec::from_slice(alloc, b"3jzfcijpj2z2a")?;
//!     let stamp = Stamp { did, rev };
//!     let (key, record) = (
//!         Vec::from_slice(alloc, KEY)?,
//!         Vec::from_slice(alloc, RECORD)?,
//!     );
//!     Ok((stamp, Vec::from_array(alloc, [Write::Put(key, record)])?))
//! }
//!
//! /// A writer that puts a record into repository 0. It would stand in a thread of its own, as the other one would.
//! fn puts<R: Wait + Abort>(rt: &R, alloc: Global, host: &Host<Sha256, 2>, seat: Seat) -> Ended
//!     requires { IsSeatOf host.now seat }
//!     ensures { IsEndedAt host.now.queue.queue_id host.now.repos result }
//! {
//!     let mut writer = host.writer(seat);
//!     let (stamp, writes) = a_put(alloc).expect(rt, "memory");
//!     let notice = writer
//!         .apply(rt, alloc, 0, &stamp, &writes)
//!         .expect(rt, "a notice");
//!     assert!(rt; notice.seq == 1 && notice.number == 1);
//!     writer.end()
//! }
//!
//! /// A writer that finds the record and publishes a version, which stays as it is and is read without a lock.
//! fn finds<R: Wait + Abort>(rt: &R, alloc: Global, host: &Host<Sha256, 2>, seat: Seat) -> Ended
//!     requires { IsSeatOf host.now seat }
//!     ensures { IsEndedAt host.now.queue.queue_id host.now.repos result }
//! {
//!     let mut writer = host.writer(seat);
//!     let found = writer.get(rt, alloc, 0, KEY).expect(rt, "an answer");
//!     assert!(rt; found.is_some_and(|record| record.as_slice() == RECORD));
//!     let receipt = writer.publish(rt, alloc, 0).expect(rt, "a version");
//!     assert!(rt; host.version(&receipt).number == 1);
//!     writer.end()
//! }
//!
//! fn two_writers_and_a_version(rt: HostRuntime) {
//!     let alloc = rt.alloc();
//!
//!     // Two repositories, and a seat for each of two writers.
//!     let limits = Limits {
//!         repos: 2,
//!         writers: 2,
//!         queue: 10,
//!         shard_blocks: 1000,
//!         repo_writes: 1000,
//!     };
//!     let opened = Host::<Sha256, 2>::open(&rt, alloc, limits, TableKey::known());
//!     let Opened {
//!         host,
//!         mut seats,
//!         feed,
//!     } = opened.expect(&rt, "a host");
//!     let other = seats.pop().expect(&rt, "a seat");
//!     let seat = seats.pop().expect(&rt, "a seat");
//!     let mut ended = Vec::with_capacity(alloc, 2).expect(&rt, "memory");
//!     ended.push_reserved(puts(&rt, alloc, &host, seat));
//!     ended.push_reserved(finds(&rt, alloc, &host, other));
//!
//!     // The notice of the put comes to the one that takes them.
//!     let mut taker = host.taker(feed);
//!     let taken = taker.pop(&rt);
//!     let feed = taker.end();
//!
//!     // Once all writers have ended the host closes, and tells how many repositories have a block.
//!     let count = match close(host, ended, feed) {
//!         Ok(closed) => closed.count(&Cid::of::<Sha256>(RECORD)),
//!         Err(_) => 0,
//!     };
//!     assert!(rt; count == 1 && taken.is_some_and(|notice| notice.seq == 1));
//! }
//! ```
#![tactic(auto)]

mod atproto;
mod fault;
mod host;
mod limits;
mod locked;
mod opening;
mod rooted;
mod seat;
mod version;
mod waiting;
mod writer;

pub use atproto::{AtprotoHost, AtprotoOpened, AtprotoReceipt, AtprotoWriter};
pub use fault::{ApplyFromFault, HostFault, OpenFault};
pub use host::{Host, Opened};
pub use limits::Limits;
pub use seat::Seat;
pub use version::{Receipt, Version};
pub use writer::Writer;
