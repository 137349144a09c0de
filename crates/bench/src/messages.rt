//! The message `#commit` of each batch of one put: written, checked, and its bytes hashed alone.

use crate::desks::Desk;
use crate::edits::Change;
use crate::made;
use crate::plans::Plan;
use crate::watch::Meter;
use cid::{Cid, Sha256};
use commit_events::check_commit;
use event_writing::{Told, commit_event};
use key_changes::{KeyChange, are_key_changes};
use repo::Core;
use std::alloc::{AllocError, Global};
use std::sync::Wait;
use std::time::CpuClock;

/// What was measured of messages, in nanoseconds of processor time for all of them together.
#[derive(Clone, Copy, Drop)]
pub struct Messages {
    pub messages: u64,
    pub bytes: u64,
    /// How many were taken from the root before, and led to the root after.
    pub taken: u64,
    /// A digest over all of them.
    pub chain: Cid,
    pub write: u128,
    pub check: u128,
    pub hash: u128,
}

impl Messages {
    /// No messages, and this in place of each time.
    fn none(nanos: u128) -> Messages {
        Messages {
            messages: 0,
            bytes: 0,
            taken: 0,
            chain: Cid::of::<Sha256>(b""),
            write: nanos,
            check: nanos,
            hash: nanos,
        }
    }

    /// What another round told, with the least times of both.
    fn quickest(&self, other: Messages) -> Messages {
        Messages {
            write: self.write.min(other.write),
            check: self.check.min(other.check),
            hash: self.hash.min(other.hash),
            ..other
        }
    }

    /// The same without so many nanoseconds of each message's times, in which nothing was done.
    fn without(&self, nothing: u128) -> Messages {
        let nothing = nothing.saturating_mul(u128::from(self.messages));
        Messages {
            write: self.write.saturating_sub(nothing),
            check: self.check.saturating_sub(nothing),
            hash: self.hash.saturating_sub(nothing),
            ..*self
        }
    }

    /// Puts the key at a place by a batch of its own, and writes the message of it. `None` where there is none.
    fn put<R: Wait + CpuClock>(
        &mut self,
        rt: &R,
        alloc: Global,
        plan: &Plan,
        desk: &mut Desk<'_, '_, R>,
        place: usize,
    ) -> Option<()> {
        let (key, value) = plan.pairs.get(place)?;
        let changes = [KeyChange {
            key,
            before: None,
            after: Some(*value),
        }];
        let (before, since) = (desk.core.root(), made::letters(desk.last));
        if !desk.change_all(alloc, plan, Change::Put, &[place]) {
            return None;
        }
        let told = Told {
            seq: desk.last,
            time: b"2026-12-01T00:00:00Z",
            since: Some(&since),
            sig: &[7; 64],
        };
        let meter = Meter::start(rt);
        let written = written(alloc, desk.core, before, &changes, &told);
        self.write = self.write.saturating_add(meter.nanos(rt));
        self.check(rt, alloc, before, desk.core.root(), &written?)
            .ok()
    }

    /// Checks a message from this root to that, and hashes it.
    fn check<R: CpuClock>(
        &mut self,
        rt: &R,
        alloc: Global,
        before: Cid,
        after: Cid,
        message: &[u8],
    ) -> Result<(), AllocError> {
        let meter = Meter::start(rt);
        let is_taken = leads_to(alloc, before, after, message);
        self.check = self.check.saturating_add(meter.nanos(rt));
        let meter = Meter::start(rt);
        let digest = Cid::of::<Sha256>(message);
        self.hash = self.hash.saturating_add(meter.nanos(rt));
        if is_taken {
            self.taken = self.taken.saturating_add(1);
        }
        self.messages = self.messages.saturating_add(1);
        self.bytes = self.bytes.saturating_add(message.len() as u64);
        self.chain = chained(alloc, self.chain, digest)?;
        Ok(())
    }
}

/// The message of a batch, if there is one. It is a call of its own, so that its instructions can be counted.
#[inline(never)]
fn written(
    alloc: Global,
    core: &Core<Sha256, 2>,
    before: Cid,
    changes: &[KeyChange<'_>],
    told: &Told<'_>,
) -> Option<Vec<u8>> {
    if !are_key_changes(changes) {
        return None;
    }
    commit_event::<Sha256, 2, _>(alloc, core, before, changes, told).ok()
}

/// Whether a message is taken from this root, and leads to that. It is a call of its own, so that its instructions can be counted.
#[inline(never)]
fn leads_to(alloc: Global, before: Cid, after: Cid, message: &[u8]) -> bool {
    match check_commit::<Sha256, 2, _>(alloc, before, message) {
        Ok(checked) => checked.commit.root.to_cid() == after,
        Err(_) => false,
    }
}

/// A digest over two.
fn chained(alloc: Global, one: Cid, other: Cid) -> Result<Cid, AllocError> {
    let mut both = Vec::from_slice(alloc, one.as_bytes())?;
    both.extend_from_slice(other.as_bytes())?;
    Ok(Cid::of::<Sha256>(&both))
}

/// Puts the new keys of a plan, one a batch, writes and checks the message of each, and deletes the keys again, so many times.
/// `None` where a batch was refused or there is no message of it.
pub fn measure<R: Wait + CpuClock>(
    rt: &R,
    alloc: Global,
    plan: &Plan,
    desk: &mut Desk<'_, '_, R>,
    rounds: u32,
) -> Option<Messages> {
    let nothing = Meter::of_nothing(rt);
    let mut measured = Messages::none(u128::MAX);
    for _ in 0..rounds {
        let mut messages = Messages::none(0);
        for place in &plan.places.new {
            messages.put(rt, alloc, plan, desk, *place)?;
        }
        if !desk.change_all(alloc, plan, Change::Delete, &plan.places.new) {
            return None;
        }
        measured = measured.quickest(messages.without(nothing));
    }
    Some(measured)
}
