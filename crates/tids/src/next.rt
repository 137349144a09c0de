//! The next timestamp identifier.

ghost use Rattle.std.specs.Prelude.{◌≡◌, ◌<◌, ◌^◌, true, option_map, IfOk};
ghost use Rattle.spec.specs.Reading.{Gives};
ghost use Rattle.spec.specs.Stamps.{is_next_rev, is_tid as is_tid_of};
ghost use Rattle.tids.specs.Tids.{following as following_of, last_number as last_number_of, next_micros as next_micros_of, next_tid as next_of, passes as passes_of};
ghost use Rattle.tids.specs.Views.{tid_fault_of};

use crate::fault::TidFault;
use crate::letters::{letters, number_from};
use record_rules::is_tid;

/// The next timestamp identifier after the last one, if there is one, at so many microseconds since 1970 by the clock of this number.
///
/// Where this time by this clock isn't after the last one, as where the clock has gone back, it is that of the microsecond after the
/// last one's. What is answered is one, and is bytewise after the last one.
///
/// `TidFault::BadTid` comes where the last one isn't one, `TidFault::OutOfRange` where the microseconds have more than 53 bits or the
/// clock's number more than 10, and `TidFault::NoneAfter` where none of 53 bits is after the last one.
#[tactic(auto, unfolding(crate::specs::Tids::next_tid))]
pub fn next_tid(last: Option<&[u8]>, micros: u64, clock: u64) -> Result<[u8; 13], TidFault>
    ensures next { Gives (λ letters. letters) tid_fault_of result
        (next_of (option_map (λ last. last.now) last.entry) micros clock) }

    // What is answered is one.
    ensures own { IfOk result (λ letters. is_tid_of letters ≡ true) }
{
    passes(last)?;
    if micros >= 0x20_0000_0000_0000 || clock >= 1024 {
        return Err(TidFault::OutOfRange);
    }
    let micros = next_micros(last, micros, clock);
    following(last, micros, clock)
}

/// That at some microseconds, where it is after the last one.
#[tactic(auto, unfolding(crate::specs::Tids::following), using(crate::proofs::OwnLetters::letters_are))]
fn following(last: Option<&[u8]>, micros: u64, clock: u64) -> Result<[u8; 13], TidFault>
    requires clock { clock < 1024 }
    ensures next { Gives (λ letters. letters) tid_fault_of result
        (following_of (option_map (λ last. last.now) last.entry) micros clock) }
    ensures own { IfOk result (λ letters. is_tid_of letters ≡ true) }
{
    if micros >= 0x20_0000_0000_0000 {
        return Err(TidFault::NoneAfter);
    }
    let next = letters(micros * 1024 + clock);
    if !is_after(last, &next) {
        return Err(TidFault::NoneAfter);
    }
    Ok(next)
}

/// Whether the last one is one, if there is one.
fn passes(last: Option<&[u8]>) -> Result<(), TidFault>
    ensures { Gives (λ x. x) tid_fault_of result
        (passes_of (option_map (λ last. last.now) last.entry)) }
{
    match last {
        Some(last) if !is_tid(last) => Err(TidFault::BadTid),
        _ => Ok(()),
    }
}

/// The microseconds of the next one.
fn next_micros(last: Option<&[u8]>, micros: u64, clock: u64) -> u64
    requires micros { micros < 2 ^ 53 }
    requires clock { clock < 1024 }
    ensures { result ≡ next_micros_of (option_map (λ last. last.now) last.entry) micros clock }
{
    match last_number(last) {
        Some(number) if number >= micros * 1024 + clock => number / 1024 + 1,
        _ => micros,
    }
}

/// The number of the last one, if there is one.
fn last_number(last: Option<&[u8]>) -> Option<u64>
    ensures { result ≡ last_number_of (option_map (λ last. last.now) last.entry) }
{
    match last {
        Some(last) => number_from(0, last),
        None => None,
    }
}

/// Whether bytes are bytewise after the last ones, if there are any.
fn is_after(last: Option<&[u8]>, next: &[u8]) -> bool
    ensures { result ≡ is_next_rev (option_map (λ last. last.now) last.entry) next.now }
{
    match last {
        Some(last) => last.cmp(next).is_lt(),
        None => true,
    }
}
