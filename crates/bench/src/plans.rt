//! Which keys a repository has, and which are put and deleted.

use crate::edits::{Change, Tree};
use crate::{made, trees};
use batches::{Stamp, Write};
use cid::{Cid, Sha256, layer};
use std::alloc::{AllocError, Global};

/// Pairs of keys and their records' CIDs, and by their places: which a repository gets at first, which of these go again
/// before anything is measured, and which are then put and deleted.
#[derive(Drop)]
pub struct Plan {
    pub pairs: Vec<(Vec<u8>, Cid)>,
    pub places: Places,
}

/// The places of a plan.
#[derive(Drop)]
pub struct Places {
    pub first: Vec<usize>,
    pub gone: Vec<usize>,
    pub new: Vec<usize>,
}

impl Plan {
    /// So many keys, and a quarter as many more, at most 10,000, that are put and deleted.
    pub fn usual(alloc: Global, count: u32) -> Result<Plan, AllocError> {
        Plan::with_more(alloc, count, 10_000)
    }

    /// So many keys, and a quarter as many more, at most so many, that are put and deleted.
    pub fn with_more(alloc: Global, count: u32, most: u32) -> Result<Plan, AllocError> {
        let more = (count / 4).min(most);
        Plan::parted(alloc, count.saturating_add(more), more)
    }

    /// So many keys, of which so many are put and deleted and the others are there at first.
    pub fn parted(alloc: Global, count: u32, new: u32) -> Result<Plan, AllocError> {
        let pairs = made::records(alloc, count)?;
        let order = made::some(alloc, pairs.len(), pairs.len())?;
        let places = Places::parted(alloc, &order, new as usize)?;
        Ok(Plan { pairs, places })
    }

    /// So many keys that are all of layer 0, and ten more that are put and deleted. So that a repository with these alone
    /// can be made in little time, it first gets keys of all layers, and loses the others in the order of their layers.
    pub fn flat(alloc: Global, count: u32) -> Result<Plan, AllocError> {
        let all = count.saturating_add(count / 5 * 2).saturating_add(100);
        let pairs = made::records(alloc, all)?;
        let order = made::some(alloc, pairs.len(), pairs.len())?;
        let places = Places::by_layers(alloc, &pairs, &order, count as usize)?;
        Ok(Plan { pairs, places })
    }

    /// How many keys there are while the others are put and deleted.
    pub fn keys(&self) -> usize {
        self.places
            .first
            .len()
            .saturating_sub(self.places.gone.len())
    }

    /// The tree of the keys that are there at first and don't go, or `None` where it can't be built.
    pub fn tree(&self, alloc: Global) -> Option<Tree> {
        let kept = self.kept(alloc).ok()?;
        let blocks = trees::nodes(alloc, &kept)?;
        Tree::new(alloc, &blocks)
    }

    /// The pairs of these keys, in their order.
    fn kept(&self, alloc: Global) -> Result<Vec<(Vec<u8>, Cid)>, AllocError> {
        let are_kept = self.are_kept(alloc)?;
        let mut kept = Vec::new(alloc);
        for (pair, is_kept) in self.pairs.iter().zip(are_kept.iter()) {
            if *is_kept {
                trees::push_pair(alloc, &mut kept, &pair.0, pair.1)?;
            }
        }
        Ok(kept)
    }

    /// Of each pair whether it is one of these.
    fn are_kept(&self, alloc: Global) -> Result<Vec<bool>, AllocError> {
        let mut are_kept = Vec::from_elem(alloc, false, self.pairs.len())?;
        set(&mut are_kept, &self.places.first, true);
        set(&mut are_kept, &self.places.gone, false);
        Ok(are_kept)
    }

    /// The writes of a change at each of these places.
    pub fn writes(
        &self,
        alloc: Global,
        change: Change,
        places: &[usize],
    ) -> Result<Vec<Write>, AllocError> {
        let mut writes = Vec::new(alloc);
        for place in places {
            if let Some((key, _)) = self.pairs.get(*place) {
                writes.push(write(alloc, change, key, *place as u64)?)?;
            }
        }
        Ok(writes)
    }
}

/// The write of this change of a key, whose record has this number.
fn write(alloc: Global, change: Change, key: &[u8], number: u64) -> Result<Write, AllocError> {
    let key = Vec::from_slice(alloc, key)?;
    match change {
        Change::Put => Ok(Write::Put(key, made::record(alloc, number)?)),
        Change::Delete => Ok(Write::Delete(key)),
    }
}

/// The stamp with this number: the revisions ascend with it.
pub fn stamp(alloc: Global, number: u64) -> Result<Stamp, AllocError> {
    let did = Vec::from_slice(alloc, b"did:plc:abcdefghijklmnopqrstuvwx")?;
    let rev = Vec::from_slice(alloc, &made::letters(number))?;
    Ok(Stamp { did, rev })
}

/// Sets the flags at these places.
fn set(flags: &mut [bool], places: &[usize], to: bool) {
    for place in places {
        if let Some(flag) = flags.get_mut(*place) {
            *flag = to;
        }
    }
}

impl Places {
    /// So many places are new and the others are there at first.
    fn parted(alloc: Global, order: &[usize], most: usize) -> Result<Places, AllocError> {
        let (new, first) = order.split_at(most.min(order.len()));
        Ok(Places {
            first: Vec::from_slice(alloc, first)?,
            gone: Vec::new(alloc),
            new: Vec::from_slice(alloc, new)?,
        })
    }

    /// So many places of keys of layer 0 are there at first, with those of higher layers, which go again, and ten are new.
    fn by_layers(
        alloc: Global,
        pairs: &[(Vec<u8>, Cid)],
        order: &[usize],
        most: usize,
    ) -> Result<Places, AllocError> {
        let mut layers = Layers {
            higher: Vec::new(alloc),
            flat: 0,
            places: Places {
                first: Vec::new(alloc),
                gone: Vec::new(alloc),
                new: Vec::new(alloc),
            },
        };
        for place in order {
            layers.take(*place, layer_at(pairs, *place), most)?;
        }
        layers.let_go()?;
        Ok(layers.places)
    }
}

/// Places that are parted by the layers of their keys.
#[derive(Drop)]
struct Layers {
    /// Those of higher layers than 0, each behind its layer.
    higher: Vec<(u16, usize)>,
    /// How many of layer 0 are there at first.
    flat: usize,
    places: Places,
}

impl Layers {
    /// A place of a key of this layer is there at first, where the layer is higher than 0 or there are fewer of layer 0 than
    /// `most`, or else it is a new one, up to ten.
    fn take(&mut self, place: usize, height: u16, most: usize) -> Result<(), AllocError> {
        if height > 0 {
            self.higher.push((height, place))?;
            self.places.first.push(place)?;
        } else if self.flat < most {
            self.flat = self.flat.saturating_add(1);
            self.places.first.push(place)?;
        } else if self.places.new.len() < 10 {
            self.places.new.push(place)?;
        }
        Ok(())
    }

    /// Those of higher layers go, in the order of their layers.
    fn let_go(&mut self) -> Result<(), AllocError> {
        self.higher.sort()?;
        for (_, place) in &self.higher {
            self.places.gone.push(*place)?;
        }
        Ok(())
    }
}

/// The layer of the key at this place.
fn layer_at(pairs: &[(Vec<u8>, Cid)], place: usize) -> u16 {
    match pairs.get(place) {
        Some((key, _)) => layer::<Sha256, 2>(key),
        None => 0,
    }
}
