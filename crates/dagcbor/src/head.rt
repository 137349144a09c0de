//! Heads of items at the front of some bytes (RFC 8949, section 3; the shortest form alone: IPLD DAG-CBOR).

ghost use Rattle.std.specs.Prelude.{◌≡◌, ◌≤◌, ◌<◌, ◌≢◌, length, IfOk, Err, Some};
ghost use Rattle.spec.specs.Reading.{Gives, front};
ghost use Rattle.spec.specs.Head.{head_at, argument_at, long_argument, simple_at, Truncated};
ghost use Rattle.spec.specs.Head as heads;
ghost use Rattle.spec.specs.DagCbor.{head_of};
ghost use Rattle.dagcbor.specs.Fault.{cbor_fault_of};

use crate::fault::CborFault;

/// An argument of 1, 2, 4 or 8 bytes, and the bytes after it.
fn long_argument(low: u8, bytes: &[u8]) -> Result<(u64, &[u8]), CborFault>
    requires lower { 24 ≤ low }
    requires upper { low ≤ 27 }
    ensures read { Gives (λ x. (x.0, x.1.now)) cbor_fault_of result (long_argument low bytes.now) }
    ensures no_longer { IfOk result (λ x. length x.1.now ≤ length bytes.now) }
    ensures takes_no_memory { result ≢ Err CborFault.NoMemory }
{
    if low == 24 {
        if bytes.is_empty() {
            return Err(CborFault::Truncated);
        }
        let n = u64::from(bytes[0]);
        if n < 24 {
            return Err(CborFault::LongHead);
        }
        return Ok((n, &bytes[1..]));
    }
    if low == 25 {
        if bytes.len() < 2 {
            return Err(CborFault::Truncated);
        }
        let (front, rest) = bytes.split_at(2);
        let n = u16::from_be_bytes([front[0], front[1]]);
        if n < 0x100 {
            return Err(CborFault::LongHead);
        }
        return Ok((u64::from(n), rest));
    }
    if low == 26 {
        if bytes.len() < 4 {
            return Err(CborFault::Truncated);
        }
        let (front, rest) = bytes.split_at(4);
        let n = u32::from_be_bytes([front[0], front[1], front[2], front[3]]);
        if n < 0x1_0000 {
            return Err(CborFault::LongHead);
        }
        return Ok((u64::from(n), rest));
    }
    if bytes.len() < 8 {
        return Err(CborFault::Truncated);
    }
    let (front, rest) = bytes.split_at(8);
    let n = u64::from_be_bytes([
        front[0], front[1], front[2], front[3], front[4], front[5], front[6], front[7],
    ]);
    if n < 0x1_0000_0000 {
        return Err(CborFault::LongHead);
    }
    Ok((n, rest))
}

/// The argument that low five bits from 24 on announce, and the bytes after it.
#[inline(never)]
fn announced_argument(low: u8, bytes: &[u8]) -> Result<(u64, &[u8]), CborFault>
    requires { 24 ≤ low }
    ensures read { Gives (λ x. (x.0, x.1.now)) cbor_fault_of result (argument_at low bytes.now) }
    ensures no_longer { IfOk result (λ x. length x.1.now ≤ length bytes.now) }
    ensures takes_no_memory { result ≢ Err CborFault.NoMemory }
{
    if low == 31 {
        Err(CborFault::Indefinite)
    } else if 27 < low {
        Err(CborFault::LongHead)
    } else {
        long_argument(low, bytes)
    }
}

/// The same, with room for the answer made at this call alone.
#[inline(always)]
fn announced(low: u8, bytes: &[u8]) -> Result<(u64, &[u8]), CborFault>
    requires { 24 ≤ low }
    ensures read { Gives (λ x. (x.0, x.1.now)) cbor_fault_of result (argument_at low bytes.now) }
    ensures no_longer { IfOk result (λ x. length x.1.now ≤ length bytes.now) }
    ensures takes_no_memory { result ≢ Err CborFault.NoMemory }
{
    let (n, rest) = announced_argument(low, bytes)?;
    Ok((n, rest))
}

/// The argument that the low five bits of a first byte say, and the bytes after it. Nearly all heads have one byte or
/// two, and these are read in place; the others by a call.
#[inline(always)]
fn argument(low: u8, bytes: &[u8]) -> Result<(u64, &[u8]), CborFault>
    ensures read { Gives (λ x. (x.0, x.1.now)) cbor_fault_of result (argument_at low bytes.now) }
    ensures no_longer { IfOk result (λ x. length x.1.now ≤ length bytes.now) }
    ensures takes_no_memory { result ≢ Err CborFault.NoMemory }
{
    match bytes {
        _ if low < 24 => Ok((u64::from(low), bytes)),
        [n, rest @ ..] if low == 24 && *n >= 24 => Ok((u64::from(*n), rest)),
        _ => announced(low, bytes),
    }
}

/// A simple value's number, which is false's, true's or null's, and the bytes after it.
#[inline]
fn simple(low: u8, bytes: &[u8]) -> Result<(u64, &[u8]), CborFault>
    ensures read { Gives (λ x. (x.0, x.1.now)) cbor_fault_of result (simple_at low bytes.now) }
    ensures no_longer { IfOk result (λ x. length x.1.now ≤ length bytes.now) }
    ensures takes_no_memory { result ≢ Err CborFault.NoMemory }
{
    match low {
        20 | 21 | 22 => Ok((u64::from(low), bytes)),
        25 | 26 | 27 => Err(CborFault::Float),
        31 => Err(CborFault::Indefinite),
        _ => Err(CborFault::Simple),
    }
}

/// A head at the front: its major type and its argument, and the bytes after it.
#[tactic(auto, unfolding(spec::specs::Head::head_at))]
#[inline(always)]
pub(crate) fn head(bytes: &[u8]) -> Result<((u8, u64), &[u8]), CborFault>
    ensures read { Gives (λ x. (x.0, x.1.now)) cbor_fault_of result (head_at bytes.now) }
    ensures no_longer { IfOk result (λ x. length x.1.now ≤ length bytes.now) }
    ensures takes_no_memory { result ≢ Err CborFault.NoMemory }
{
    match bytes {
        [] => Err(CborFault::Truncated),
        [first, rest @ ..] => {
            let (n, rest) = if *first < 224 {
                argument(*first % 32, rest)?
            } else {
                simple(*first % 32, rest)?
            };
            Ok(((*first / 32, n), rest))
        }
    }
}

/// The first `n` bytes and the others, or `Truncated` where there are fewer.
#[inline]
pub(crate) fn front(n: u64, bytes: &[u8]) -> Result<(&[u8], &[u8]), CborFault>
    ensures read { Gives (λ x. (x.0.now, x.1.now)) cbor_fault_of result
        (front Truncated n bytes.now) }
    ensures takes_no_memory { result ≢ Err CborFault.NoMemory }
{
    if (bytes.len() as u64) < n {
        return Err(CborFault::Truncated);
    }
    Ok(bytes.split_at(n as usize))
}

/// The argument of a head that has to have this major type, or else there is this fault.
pub(crate) fn head_of(major: u8, fault: CborFault, bytes: &[u8]) -> Result<(u64, &[u8]), CborFault>
    ensures read { (f : heads.CborFault) → cbor_fault_of fault ≡ Some f
        → Gives (λ x. (x.0, x.1.now)) cbor_fault_of result (head_of major f bytes.now) }
    ensures takes_no_memory { fault ≢ CborFault.NoMemory → result ≢ Err CborFault.NoMemory }
{
    match bytes {
        [] => Err(CborFault::Truncated),
        [first, ..] => {
            if *first / 32 != major {
                return Err(fault);
            }
            let ((_, n), rest) = head(bytes)?;
            Ok((n, rest))
        }
    }
}
