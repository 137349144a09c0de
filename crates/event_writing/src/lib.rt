//! The messages that a host sends of its repositories (AT Protocol, event streams, sync 1.1): `#commit` of their batches, and
//! `#sync` of their states.
//!
//! - [`commit_event`] writes the message of a repository's last batch: what each key had and has, the root before, and a CAR
//!   file of the signed commit, the nodes that undoing the changes reads, and the records that came. It is taken by whoever
//!   knows the root before (`commit_events::check_commit`).
//! - [`prepared_event`] writes that of a batch that was prepared, before it is accepted, and [`apply_signed`] accepts a batch that
//!   was signed over a root, with its message, or refuses it as a whole ([`SigningFault`]): after acceptance nothing is refused.
//! - [`sync_event`] writes the message of a repository as it is: whose it is, its revision, and the signed commit. A host
//!   sends it where a batch can't be told.
//! - [`Told`] and [`SyncTold`] are what a message tells beside the batch or the state. [`UntoldFault`] says why there is none.
//!
//! ```rust
//! use batches::{Stamp, Write};
//! use cid::{Cid, Sha256};
//! use commit_events::check_commit;
//! use event_writing::{Told, commit_event};
//! use key_changes::{KeyChange, are_key_changes};
//! use repo::Core;
//! use std::test::Fail;
//! use store::{LentShard, Shard, TableKey};
//!
//! fn a_message_is_written_and_taken(rt: HostRuntime) -> Result<(), Fail> {
//!     let alloc = rt.alloc();
//!
//!     // A batch that puts one record, where none was, and what it changes.
//!     let key = b"app.bsky.feed.post/3jzfcijpj2z2a".as_slice();
//!     let bytes = b"\xa1\x64text\x65hello".as_slice();
//!     let mut writes = Vec::new(alloc);
//!     writes.push(Write::Put(Vec::from_slice(alloc, key)?, Vec::from_slice(alloc, bytes)?))?;
//!     let stamp = Stamp {
//!         did: Vec::from_slice(alloc, b"did:web:example.com")?,
//!         rev: Vec::from_slice(alloc, b"3jzfcijpj2z2a")?,
//!     };
//!     let changes = [KeyChange {
//!         key,
//!         before: None,
//!         after: Some(Cid::of::<Sha256>(bytes)),
//!     }];
//!     assert!(rt; are_key_changes(&changes));
//!
//!     // What the message tells beside it. The signature would be one of `core.commit()`'s block.
//!     let told = Told {
//!         seq: 1,
//!         time: b"2024-01-01T00:00:00Z",
//!         since: None,
//!         sig: &[7; 64],
//!     };
//!
//!     // The batch is accepted, and then told.
//!     let mut shard = Shard::new(alloc, 1000, TableKey::known());
//!     let mut store = LentShard::new(&mut shard);
//!     let mut core = Core::<Sha256, 2, _>::open(alloc, &mut store, 0, 1000).expect(&rt, "a core");
//!     let before = core.root();
//!     let applied = core.apply(alloc, &mut store, &stamp, &writes).is_ok();
//!     let written = commit_event::<Sha256, 2, _>(alloc, &core, before, &changes, &told);
//!     let root = core.root();
//!     core.end(&mut store);
//!
//!     // Whoever knows the root before takes the message, and has the root after.
//!     let message = written.expect(&rt, "a message");
//!     let checked = check_commit::<Sha256, 2, _>(alloc, before, &message).expect(&rt, "a true one");
//!     assert!(rt; applied && checked.commit.root.to_cid() == root);
//!     Ok(())
//! }
//! ```
#![tactic(auto)]

mod fault;
mod file;
mod left;
mod message;
mod ops;
mod prepared;
mod signing;
mod signing_fault;
mod sync_told;
mod syncing;
mod told;
mod writing;

pub use fault::UntoldFault;
pub use prepared::prepared_event;
pub use signing::{Signed, apply_signed};
pub use signing_fault::SigningFault;
pub use sync_told::SyncTold;
pub use syncing::sync_event;
pub use told::Told;
pub use writing::commit_event;
