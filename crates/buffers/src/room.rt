//! The room that a caller has.

ghost use Rattle.buffers.specs.Answers.{IsHanded, IsKept};

/// The number of a call that did what it says.
pub const DONE: u8 = 0;

/// The number of a call whose answer has no room.
pub const SMALL: u8 = 251;

/// Copies bytes to the front of the caller's room, where they have room there, and tells how many they are. What is behind them
/// stays as it was, and all of the room where it is too small.
pub fn hand(bytes: &[u8], room: &mut [u8], size: &mut usize) -> u8
    ensures handed { IsHanded result bytes.now room.old room.new size.new }
    ensures kept { IsKept result room.old room.new size.old size.new }
{
    *size = bytes.len();
    if bytes.len() > room.len() {
        return SMALL;
    }
    let (front, _) = room.split_at_mut(bytes.len());
    front.copy_from_slice(bytes);
    DONE
}
