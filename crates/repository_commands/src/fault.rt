//! Why a command writes no text.
ghost use Rattle.std.specs.Prelude.{◌≡◌, ◌≤◌, Some};
ghost use Rattle.repository_commands.specs.declared.fault.TextFault.TheVariants as errors;
ghost use Rattle.repository_commands.specs.Faults.{of_read, status_of};
ghost use Rattle.repository_commands.specs.Names.{fault_text, line_fault_name};

use crate::names::{ChangeName, proof_fault_name, root_fault_name};
use batches::{RefusalName, RepoFault};
use change_proofs::ChangeFault;
use cid::{CidFault, Digest};
use console::{Decimal, FAULTY, IO_FAILED, NO_MEMORY, ReadFault};
use export::ProofFault;
use record_forms::JsonFaultText;
use record_json::JsonFaultKind;
use std::alloc::{AllocError, AllocFailed, Allocator, Global};
use std::error::Error;
use std::fmt;

/// What is wrong with a line.
#[derive(Drop)]
#[derive_where(Debug)]
pub enum LineFault<D: Digest, A: Allocator = Global> {
    /// It hasn't the words that a line of this command has.
    BadLine,
    /// What stands behind its key is no record as JSON. It has this fault, the first one.
    BadJson {
        kind: JsonFaultKind,
        /// The way to it from the outside: `.key` for a key of an object, `[place]` for an item of a list, counted from 0.
        path: String<A>,
    },
    /// The repository doesn't take its write.
    Refused(RepoFault<D, A>),
    /// The key of its change has another record in the tree after it, or none.
    OtherValue,
}

/// Why there is no text. Nothing was written. Standard error shows these names, which are this repository's own.
#[derive(Drop)]
#[derive_where(Debug)]
pub enum TextFault<D: Digest, A: Allocator = Global> {
    /// The DID isn't one (W3C DID Core, DID syntax), or has more than 2,048 bytes. Nothing was read.
    BadDid,
    /// The revision isn't a timestamp identifier (AT Protocol, TID). Nothing was read.
    BadRev,
    /// The signature isn't hexadecimal, or has no digits. Nothing was read.
    BadSig,
    /// No line puts a record, so there is no batch, and no commit to be signed.
    NothingToSign,
    /// The root isn't the text of a CID of a block of this host. Nothing was read.
    Root(CidFault),
    /// The root before a change isn't the text of such a CID. Nothing was read.
    BadBefore(CidFault),
    /// The root after a change isn't the text of such a CID. Nothing was read.
    BadAfter(CidFault),
    /// The key has no bytes or more than 1,024, and nothing was read; or the blocks show nothing of the key.
    Proof(ProofFault),
    /// What is told of a change has another root before it than the one that is known.
    OtherBefore,
    /// What is told of a change has another root after it than the one that is known.
    OtherAfter,
    /// The nodes don't show a change.
    Change(ChangeFault),
    /// This line of the input is at fault.
    Line {
        /// The line's number, from 1. Empty lines count.
        number: u64,
        /// What is wrong with it.
        fault: LineFault<D, A>,
    },
    /// An allocation was refused.
    NoMemory,
    /// The input can't be read.
    ReadFailed,
}

impl<D: Digest, A: Allocator> TextFault<D, A> {
    /// The exit status that says so.
    pub fn status(&self) -> u8
        ensures status { result ≡ status_of self.now }
        ensures failed { 1 ≤ result }
    {
        match self {
            TextFault::NoMemory => NO_MEMORY,
            TextFault::ReadFailed => IO_FAILED,
            _ => FAULTY,
        }
    }
}

/// Writes the fault's name.
impl<D: Digest, A: Allocator> fmt::Display for LineFault<D, A> {
    ghost output = { λ fault. Some (line_fault_name fault) };

    fn fmt<W: fmt::Write>(&self, f: &mut fmt::Formatter<W>) -> fmt::Result {
        match self {
            LineFault::BadLine => f.write_str("BadLine"),
            LineFault::BadJson { kind, path } => JsonFaultText {
                kind: *kind,
                path: path.as_str(),
            }
            .fmt(f),
            LineFault::Refused(fault) => RefusalName(fault).fmt(f),
            LineFault::OtherValue => f.write_str("OtherValue"),
        }
    }
}

impl<D: Digest, A: Allocator> Error for LineFault<D, A> {}

/// Writes the fault's name, and where it is one of a line the number of that before it. A fault inside it stands in
/// parentheses, and so does the CID of a block that it names.
impl<D: Digest, A: Allocator> fmt::Display for TextFault<D, A> {
    ghost output = { λ fault. Some (fault_text fault) };

    fn fmt<W: fmt::Write>(&self, f: &mut fmt::Formatter<W>) -> fmt::Result {
        match self {
            TextFault::BadDid => f.write_str("BadDid"),
            TextFault::BadRev => f.write_str("BadRev"),
            TextFault::BadSig => f.write_str("BadSig"),
            TextFault::NothingToSign => f.write_str("NothingToSign"),
            TextFault::Root(fault) => f.write_str(root_fault_name(fault)),
            TextFault::BadBefore(fault) => write!(f, "BadBefore({})", root_fault_name(fault)),
            TextFault::BadAfter(fault) => write!(f, "BadAfter({})", root_fault_name(fault)),
            TextFault::Proof(fault) => f.write_str(proof_fault_name(fault)),
            TextFault::OtherBefore => f.write_str("OtherBefore"),
            TextFault::OtherAfter => f.write_str("OtherAfter"),
            TextFault::Change(fault) => ChangeName(fault).fmt(f),
            TextFault::Line { number, fault } => {
                let number = Decimal(*number);
                write!(f, "line {number}: {fault}")
            }
            TextFault::NoMemory => f.write_str("no memory"),
            TextFault::ReadFailed => f.write_str("read failed"),
        }
    }
}

impl<D: Digest, A: Allocator> Error for TextFault<D, A> {}

impl<D: Digest, A: Allocator> From<AllocError> for TextFault<D, A> {
    ghost from_gives = { λ _ e. e ≡ errors.NoMemory };

    fn from(_refused: AllocError) -> TextFault<D, A> {
        TextFault::NoMemory
    }
}

impl<D: Digest, A: Allocator, T: Drop> From<AllocFailed<T>> for TextFault<D, A> {
    ghost from_gives = { λ _ e. e ≡ errors.NoMemory };

    fn from(_refused: AllocFailed<T>) -> TextFault<D, A> {
        TextFault::NoMemory
    }
}

impl<D: Digest, A: Allocator> From<ReadFault> for TextFault<D, A> {
    ghost from_gives = { λ f e. e ≡ of_read f };

    fn from(fault: ReadFault) -> TextFault<D, A> {
        match fault {
            ReadFault::NoMemory => TextFault::NoMemory,
            ReadFault::Failed => TextFault::ReadFailed,
        }
    }
}
