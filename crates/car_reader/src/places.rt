//! Blocks by their CIDs.

ghost use Rattle.std.specs.Prelude.{◌≡◌, IfOk, option_map};
ghost use Rattle.car_reader.specs.Views.{sections_of};

use crate::section::Section;
use cid::{Cid, CidRef};
use std::alloc::{AllocError, Allocator, Global};
use std::collections::HashMap;
use std::hash::{BuildHasherDefault, FoldHasher};
use std::marker::Model;

/// The blocks of some sections by the CIDs that these state. Of sections with one CID it gives the first one's.
///
/// The hashes have a fixed seed. So that whoever makes a file can't choose CIDs that meet in the table, `are_named` goes
/// first.
#[derive(Drop)]
pub struct Places<'s, 'a, A: Allocator = Global> {
    sections: &'s [Section<'a>],
    places: HashMap<CidRef<'a>, usize, BuildHasherDefault<FoldHasher>, A>,
}

impl<'s, 'a, A: Allocator> Model for Places<'s, 'a, A> {
    ghost use Rattle.std.specs.Prelude.{List};
    ghost use Rattle.spec.specs.CarReading as reading;
    ghost use Rattle.car_reader.specs.Views.{sections_of};
    ghost use Rattle.car_reader.specs.Maps.{IsMap};

    ghost Value = { List reading.Section };

    ghost view = { λ p. sections_of p.sections.now };

    ghost invariant = { λ p. IsMap p.sections.now p.places };
}

impl<'s, 'a, A: Allocator + Clone> Places<'s, 'a, A> {
    /// The places of these sections, or `AllocError` where memory was refused.
    pub fn new(alloc: A, sections: &'s [Section<'a>]) -> Result<Places<'s, 'a, A>, AllocError>
        ensures { IfOk result (λ places. places ≡ sections_of sections.now) }
    {
        let mut places = HashMap::with_capacity(alloc, sections.len())?;
        let mut remaining = sections.len();
        while remaining > 0 {
            remaining -= 1;
            places.insert(sections[remaining].cid, remaining)?;
        }
        Ok(Places { sections, places })
    }
}

impl<'s, 'a, A: Allocator> Places<'s, 'a, A> {
    ghost use Rattle.spec.specs.CarReading.{block_with, section_with};
    ghost use Rattle.car_reader.specs.Views.{section_of};

    /// The block that the first section with this CID has.
    pub fn find(&self, cid: &Cid) -> Option<&'a [u8]>
        ensures { option_map (λ bytes. bytes.now) result ≡ block_with cid.now self.now }
    {
        match self.section(cid) {
            Some(section) => Some(section.block),
            None => None,
        }
    }

    /// The first section with this CID.
    fn section(&self, cid: &Cid) -> Option<&'s Section<'a>>
        ensures { option_map (λ s. section_of s.now) result ≡ section_with cid.now self.now }
    {
        let place = *self.places.get(&CidRef::from(cid))?;
        self.sections.get(place)
    }
}
