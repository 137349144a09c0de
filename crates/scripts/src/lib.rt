//! Scripts: lines that the workers of a host do, each worker in a thread of its own.
//!
//! A script is for programs and tests that want many writers of one host at work at the same time, without threads of their own:
//! they say who does what, and read afterwards what came of it. Who needs an answer before the next call is made takes a `Writer`
//! of the host itself.
//!
//! - A [`Line`] names a worker, a repository and a [`Call`]: a batch to apply, or a key to look up.
//! - [`run_script`] takes the seats of a host. The worker of each seat does its own lines in their order. Lines of different workers
//!   are done in any order, or at the same time.
//! - The [`Report`] has an [`Answer`] for each line, in the order of the lines, and each writer as it ended, which is what
//!   `host_close::close` wants.
//! - A [`Gate`] is called before and after each line, by the thread that does it: a test makes threads wait for each other there.
//!   [`OpenGate`] is the one that nobody waits at.
//!
//! Proved of a report: the answers at the places of a worker's lines are those that its writer gave to these very calls, one after
//! the other. So a batch that was accepted was taken after a lawful state of this repository with no fewer writes than the worker
//! had seen there, a record that was found is that of such a state, and a call that was refused left the writer as it was.
//!
//! Not proved, since no contract can say it: that the workers' threads run at the same time, and when the gate is called. Tests
//! show both. A worker's call waits for the lock of its repository, as the writer's call does.
//!
//! ```rust
//! use batches::{Stamp, Write};
//! use cid::{Cid, Sha256};
//! use host::{Host, Limits, Opened};
//! use host_close::close;
//! use scripts::{Answer, Call, Line, OpenGate, have_workers, run_script};
//! use std::alloc::{AllocError, Global};
//! use store::TableKey;
//!
//! /// The key of a post, and its record in DAG-CBOR.
//! const KEY: &[u8] = b"app.bsky.feed.post/3jzfcijpj2z2a";
//!
//! const RECORD: &[u8] = b"\xa1\x64text\x65hello";
//!
//! /// A put of the record, with the stamp for its commit.
//! fn a_put(alloc: Global) -> Result<Call, AllocError> {
//!     let did = Vec::from_slice(alloc, b"did:web:example.com")?;
//!     let rev = Vec::from_slice(alloc, b"3jzfcijpj2z2a")?;
//!     let (key, record) = (
//!         Vec::from_slice(alloc, KEY)?,
//!         Vec::from_slice(alloc, RECORD)?,
//!     );
//!     let writes = Vec::from_array(alloc, [Write::Put(key, record)])?;
//!     Ok(Call::Apply(Stamp { did, rev }, writes))
//! }
//!
//! /// Three lines for two workers: worker 0 puts the record into repository 0 and looks for it there, and worker 1 looks for it
//! /// in repository 1.
//! fn three_lines(alloc: Global) -> Result<Vec<Line>, AllocError> {
//!     let calls = [
//!         (0, 0, a_put(alloc)?),
//!         (0, 0, Call::Get(Vec::from_slice(alloc, KEY)?)),
//!         (1, 1, Call::Get(Vec::from_slice(alloc, KEY)?)),
//!     ];
//!     let mut lines = Vec::with_capacity(alloc, 3)?;
//!     for (worker, repo, call) in calls {
//!         let number = lines.len() + 1;
//!         lines.push(Line {
//!             number,
//!             worker,
//!             repo,
//!             call,
//!         })?;
//!     }
//!     Ok(lines)
//! }
//!
//! /// Whether the put was accepted, and worker 0 found the record and worker 1 didn't.
//! fn are_right(answers: &[Answer<Sha256>]) -> bool {
//!     match answers {
//!         [
//!             Answer::Accepted(told),
//!             Answer::Found(record),
//!             Answer::Absent,
//!         ] => { told.writer == 0 && told.seq == 1 && record.as_slice() == RECORD }
//!         _ => false,
//!     }
//! }
//!
//! fn three_lines_by_two_workers(rt: HostRuntime) {
//!     let alloc = rt.alloc();
//!     let lines = three_lines(alloc).expect(&rt, "lines");
//!
//!     // Two repositories, and a seat for each of two workers.
//!     let limits = Limits {
//!         repos: 2,
//!         writers: 2,
//!         queue: 10,
//!         shard_blocks: 1000,
//!         repo_writes: 1000,
//!     };
//!     let Ok(opened) = Host::<Sha256, 2>::open(&rt, alloc, limits, TableKey::known()) else {
//!         panic!(&rt; "no host");
//!     };
//!     let Opened { host, seats, feed } = opened;
//!
//!     // Each worker does its lines in a thread of its own. The answers come in the order of the lines.
//!     if !have_workers(&lines, seats.len()) {
//!         panic!(&rt; "a line without a worker");
//!     }
//!     let report = run_script(&rt, alloc, &host, seats, &OpenGate, &lines).expect(&rt, "a report");
//!     assert!(&rt; are_right(&report.answers));
//!
//!     // The writers have ended, so that the host closes.
//!     let count = match close(host, report.ended, feed) {
//!         Ok(closed) => closed.count(&Cid::of::<Sha256>(RECORD)),
//!         Err(_) => 0,
//!     };
//!     assert!(rt; count == 1);
//! }
//! ```
#![tactic(auto)]

mod gate;
mod merging;
mod running;
mod script;
mod working;

pub use gate::{Gate, OpenGate};
pub use running::run_script;
pub use script::{Answer, Call, Line, Report, have_workers};
