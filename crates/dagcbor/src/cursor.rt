//! Heads and bytes read one after the other from the front of some bytes.

ghost use Rattle.std.specs.Prelude.{◌≡◌, ◌≢◌, ◌+◌, length, Err, OnErr};
ghost use Rattle.spec.specs.Reading.{Gives, front};
ghost use Rattle.spec.specs.Head.{head_at, Truncated};
ghost use Rattle.dagcbor.specs.Fault.{cbor_fault_of};
ghost use Rattle.dagcbor.specs.Source.{Source};

use crate::fault::CborFault;
use crate::head;
use std::marker::Model;

/// A reader over bytes that are lent. It is at a place among them: so many were read, and the others are left.
/// After an `Err` it is as it was before.
#[derive(Debug, Drop)]
pub struct Cursor<'a> {
    left: &'a [u8],
    total: usize,
}

impl<'a> Model for Cursor<'a> {
    ghost use Rattle.std.specs.Prelude.{◌-◌, ◌≤◌, length};
    ghost use Rattle.dagcbor.specs.Source.{Source};

    ghost Value = { Source };

    ghost view = { λ c. record { left = c.left.now; place = c.total - length c.left.now } };

    ghost invariant = { λ c. length c.left.now ≤ c.total };
}

impl<'a> Cursor<'a> {
    /// A cursor at the front of `bytes`.
    #[inline]
    pub fn new(bytes: &'a [u8]) -> Cursor<'a>
        ensures left { result.left ≡ bytes.now }
        ensures place { result.place ≡ 0 }
    {
        Cursor {
            left: bytes,
            total: bytes.len(),
        }
    }

    /// How many bytes were read.
    pub fn place(&self) -> usize
        ensures { result ≡ self.now.place }
    {
        self.total - self.left.len()
    }

    /// The head at the cursor (RFC 8949, section 3): its major type from 0 to 7, which is a `Major` as a number, and its
    /// argument, of which DAG-CBOR takes the shortest form alone. At major type 7 the second is 20 for false, 21 for true
    /// and 22 for null.
    ///
    /// `Truncated`, `LongHead`, `Indefinite`, `Float` and `Simple` say what is wrong with the head, and then nothing was read.
    #[inline(always)]
    pub fn head(&mut self) -> Result<(u8, u64), CborFault>
        ensures read { Gives (λ h. (h, self.new.left)) cbor_fault_of result
            (head_at self.old.left) }
        ensures place { self.new.place + length self.new.left
            ≡ self.old.place + length self.old.left }
        ensures unchanged { OnErr result (self.new ≡ self.old) }
        ensures takes_no_memory { result ≢ Err CborFault.NoMemory }
    {
        let (found, left) = head::head(self.left)?;
        self.left = left;
        Ok(found)
    }

    /// The bytes that are left.
    #[inline]
    pub fn rest(&self) -> &'a [u8]
        ensures { result.now ≡ self.now.left }
    {
        self.left
    }

    /// The next `n` bytes. `Truncated` where fewer are left, and then nothing was read.
    pub fn take(&mut self, n: u64) -> Result<&'a [u8], CborFault>
        ensures read { Gives (λ taken. (taken.now, self.new.left)) cbor_fault_of result
            (front Truncated n self.old.left) }
        ensures place { self.new.place + length self.new.left
            ≡ self.old.place + length self.old.left }
        ensures unchanged { OnErr result (self.new ≡ self.old) }
        ensures takes_no_memory { result ≢ Err CborFault.NoMemory }
    {
        let (taken, left) = head::front(n, self.left)?;
        self.left = left;
        Ok(taken)
    }
}
