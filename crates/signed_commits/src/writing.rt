//! The bytes of commits.

ghost use Rattle.std.specs.Prelude.{◌≡◌, ◌++◌, ◌<◌, length, option_map, IfOk, OnOk};
ghost use Rattle.spec.specs.Head.{head};
ghost use Rattle.cid.specs.CidRef.{bytes_of};
ghost use Rattle.spec.specs.SignedCommits.{last_fields, signed_bytes, unsigned_bytes};
ghost use Rattle.signed_commits.specs.Views.{commit_of};

use crate::commit::SignedCommit;
use cid::CidRef;
use dagcbor::push_head;
use std::alloc::{AllocError, Allocator};

impl<'a> SignedCommit<'a> {
    /// The bytes of the commit with its signature.
    #[tactic(auto, unfolding(spec::specs::SignedCommits::signed_bytes))]
    pub fn signed_bytes<A: Allocator>(&self, alloc: A) -> Result<Vec<u8, A>, AllocError>
        ensures { IfOk result (λ bytes. bytes.items ≡ signed_bytes (commit_of self.now)) }
    {
        let mut out = Vec::new(alloc);
        out.extend_from_slice(b"\xa6\x63did")?;
        push_string(&mut out, 3, self.did)?;
        out.extend_from_slice(b"\x63rev")?;
        push_string(&mut out, 3, self.rev)?;
        out.extend_from_slice(b"\x63sig")?;
        push_string(&mut out, 2, self.sig)?;
        push_end(&mut out, self.root, self.prev)?;
        Ok(out)
    }

    /// The bytes that were signed: those of the commit without its signature.
    #[tactic(auto, unfolding(spec::specs::SignedCommits::unsigned_bytes))]
    pub fn unsigned_bytes<A: Allocator>(&self, alloc: A) -> Result<Vec<u8, A>, AllocError>
        ensures { IfOk result (λ bytes. bytes.items ≡ unsigned_bytes (commit_of self.now)) }
    {
        let mut out = Vec::new(alloc);
        out.extend_from_slice(b"\xa5\x63did")?;
        push_string(&mut out, 3, self.did)?;
        out.extend_from_slice(b"\x63rev")?;
        push_string(&mut out, 3, self.rev)?;
        push_end(&mut out, self.root, self.prev)?;
        Ok(out)
    }
}

/// Puts a byte string or a text at the end of `out`, by its major type.
fn push_string<A: Allocator>(
    out: &mut Vec<u8, A>,
    major: u8,
    bytes: &[u8],
) -> Result<(), AllocError>
    requires { major < 7 }
    ensures { OnOk result (out.new.items ≡ out.old.items
        ++ (head major (length bytes.now) ++ bytes.now)) }
{
    push_head(out, major, bytes.len() as u64)?;
    out.extend_from_slice(bytes)
}

/// Puts the fields after the signature at the end of `out`: data, prev and version.
fn push_end<A: Allocator>(
    out: &mut Vec<u8, A>,
    root: CidRef<'_>,
    prev: Option<CidRef<'_>>,
) -> Result<(), AllocError>
    ensures { OnOk result (out.new.items ≡ out.old.items
        ++ last_fields (bytes_of root.entry) (option_map bytes_of prev.entry)) }
{
    // tag 42 over a byte string: 00 and the CID
    out.extend_from_slice(b"\x64data\xd8\x2a\x58\x25\x00")?;
    out.extend_from_slice(root.as_bytes())?;
    match prev {
        None => out.extend_from_slice(b"\x64prev\xf6")?,
        Some(cid) => {
            out.extend_from_slice(b"\x64prev\xd8\x2a\x58\x25\x00")?;
            out.extend_from_slice(cid.as_bytes())?;
        }
    }
    out.extend_from_slice(b"\x67version\x03")
}
