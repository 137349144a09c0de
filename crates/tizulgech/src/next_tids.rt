//! The next timestamp identifier.

ghost use Rattle.std.specs.Prelude.{◌≡◌};
ghost use Rattle.tids.specs.Tids.{next_tid as next_of};
ghost use Rattle.buffers.specs.Answers.{IsKept};
ghost use Rattle.tizulgech.specs.Numbers.{last_rev};
ghost use Rattle.tizulgech.specs.Signing.{tid_code, IsNextTid, IsTidTold};

use crate::codes::BAD;
use crate::stamps::some_rev;
use buffers::hand;
use tids::{TidFault, next_tid};

/// The timestamp identifier after the last one, of which no bytes say that there was none, at so many microseconds since 1970 by the
/// clock of this number, which may have gone back (AT Protocol, TID): 0 and 13 letters, which are after the last one; 28 where the last
/// one is none; 29 where there is none after it; 251; 252 for microseconds of more than 53 bits or a clock of more than 10. It takes
/// no memory.
#[unsafe(no_mangle)]
#[tactic(auto, using(crate::proofs::CommitNumbers::tid_told))]
pub extern "C" fn tizulgech_next_tid(
    last: &[u8],
    micros: u64,
    clock: u64,
    out: &mut [u8],
    size: &mut usize,
) -> u8
    ensures next { IsNextTid result (next_of (last_rev last.now) micros clock)
        out.old out.new size.new }
    ensures kept { IsKept result out.old out.new size.old size.new }
{
    let next = next_tid(some_rev(last), micros, clock);
    tell_tid(&next, out, size)
}

/// What is told of the next one.
fn tell_tid(next: &Result<[u8; 13], TidFault>, out: &mut [u8], size: &mut usize) -> u8
    ensures told { IsTidTold result next.now out.old out.new size.new }
    ensures kept { IsKept result out.old out.new size.old size.new }
{
    match next {
        Ok(letters) => hand(letters, out, size),
        Err(fault) => code_of_tid(*fault),
    }
}

/// The number of a fault of a timestamp identifier.
fn code_of_tid(fault: TidFault) -> u8
    ensures { result ≡ tid_code fault }
{
    match fault {
        TidFault::BadTid => 28,
        TidFault::OutOfRange => BAD,
        TidFault::NoneAfter => 29,
    }
}
