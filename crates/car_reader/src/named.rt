//! Whether sections are named by their blocks.

ghost use Rattle.std.specs.Prelude.{◌≡◌, ℕ, List, IfOk};
ghost use Rattle.spec.specs.CarReading.{are_named, is_named};
ghost use Rattle.car_reader.specs.Views.{section_of, sections_of};

use crate::section::Section;
use cid::{Cid, Digest};
use std::alloc::{AllocError, Allocator};

/// Whether each section's CID is that of its block. All blocks are hashed, each once, several side by side.
pub fn are_named<D: Digest, A: Allocator + Clone>(
    alloc: A,
    sections: &[Section<'_>],
) -> Result<bool, AllocError>
    ensures { IfOk result (λ named. named ≡ are_named D.digest_of (sections_of sections.now)) }
{
    let digests = D::digest_each(alloc, sections)?;
    for (place, section) in sections.iter().enumerate() {
        if !is_named(section, &digests[place]) {
            return Ok(false);
        }
    }
    Ok(true)
}

/// Whether a section is named by its block, whose digest is at hand.
#[tactic(auto, unfolding(spec::specs::Cid::cid))]
fn is_named(section: &Section<'_>, digest: &[u8; 32]) -> bool
    ensures { (f : List ℕ → List ℕ) → digest.now ≡ f section.now.block.now
        → result ≡ is_named f (section_of section.now) }
{
    Cid::of_digest(digest) == section.cid.to_cid()
}
