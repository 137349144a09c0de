//! The end of a frame, by its heads.

ghost use Rattle.std.specs.Prelude.{◌≡◌, ◌≢◌, ◌≤◌, ◌+◌, length, Err, IfOk};
ghost use Rattle.spec.specs.Reading.{Gives};
ghost use Rattle.dagcbor.specs.Fault.{cbor_fault_of};
ghost use Rattle.event_frames.specs.Frames.{behind_head as behind_head_of, bytes_of_head, cut, frame_length as frame_length_of, items_of_head};

use dagcbor::{CborFault, Cursor, Major};

/// How many items a frame has: a header and a payload.
const ITEMS: usize = 2;

/// How many bytes follow a head of this major type and argument, which belong to it: those of a byte string or a text.
fn bytes_within(major: u8, argument: u64) -> u64
    ensures { result ≡ bytes_of_head major argument }
{
    if major == Major::ByteString as u8 || major == Major::TextString as u8 {
        return argument;
    }
    0
}

/// How many items follow a head of this major type and argument, which belong to it.
fn items_within(major: u8, argument: u64) -> u128
    ensures { result ≡ items_of_head major argument }
{
    if major == Major::Array as u8 {
        return argument as u128;
    }
    if major == Major::Map as u8 {
        return argument as u128 + argument as u128;
    }
    if major == Major::Tag as u8 {
        return 1;
    }
    0
}

/// Reads one head, and what belongs to it but for items. How many items are still to come, where there were so many before.
#[tactic(auto, unfolding(crate::specs::Frames::behind_head))]
fn pass_head(cursor: &mut Cursor<'_>, items: usize) -> Result<usize, CborFault>
    ensures read { Gives (λ n. (n, cursor.new.left)) cbor_fault_of result
        (behind_head_of items cursor.old.left) }
    ensures place { cursor.new.place + length cursor.new.left
        ≡ cursor.old.place + length cursor.old.left }
    ensures takes_no_memory { result ≢ Err CborFault.NoMemory }
{
    let (major, argument) = cursor.head()?;
    cursor.take(bytes_within(major, argument))?;
    let more = items as u128 + items_within(major, argument);
    if more > cursor.rest().len() as u128 {
        return Err(CborFault::Truncated);
    }
    Ok(more as usize)
}

/// How many bytes the frame at the front of these bytes has: two items, whose ends their heads tell.
///
/// An error says that no frame ends in these bytes, as one of its heads isn't one of DAG-CBOR or the bytes end before. It is the
/// first such fault, and never `NoMemory`: no memory is taken. What stands between the heads isn't looked at.
#[tactic(auto, unfolding(crate::specs::Frames::frame_length, crate::specs::Frames::behind))]
pub fn frame_length(bytes: &[u8]) -> Result<usize, CborFault>
    ensures length { Gives (λ n. n) cbor_fault_of result (frame_length_of bytes.now) }
    ensures within { IfOk result (λ n. n ≤ length bytes.now) }
    ensures takes_no_memory { result ≢ Err CborFault.NoMemory }
{
    let mut cursor = Cursor::new(bytes);
    let mut items = ITEMS;
    for _turn in 0..bytes.len() {
        if items == 0 {
            return Ok(cursor.place());
        }
        items = pass_head(&mut cursor, items - 1)?;
    }
    if items > 0 {
        return Err(CborFault::Truncated);
    }
    Ok(cursor.place())
}

/// The first frame of a stream, and what is behind it. Where no frame ends, all that is left is one: whoever reads it finds the
/// fault.
pub fn first_frame(stream: &[u8]) -> (&[u8], &[u8])
    ensures { (result.0.now, result.1.now) ≡ cut stream.now }
{
    match frame_length(stream) {
        Ok(length) => stream.split_at(length),
        Err(_) => stream.split_at(stream.len()),
    }
}
