//! What the allocator counts.
ghost use Rattle.std.specs.Prelude.{◌≡◌, ◌≤◌, ◌-◌};

use std::cell::Cell;

/// What is still to be refused, and what was.
#[derive(Clone, Copy, Default)]
pub(crate) struct Tally {
    pub(crate) live: u64,
    pub(crate) refused: u64,
    /// How many requests there are to the next refusal and with it, or 0 for none.
    next: u64,
    /// Whether the requests after that one are refused too.
    onward: bool,
}

impl Tally {
    /// The same counts, with the request of this number still to be refused.
    pub(crate) fn refusing(self, number: u64, onward: bool) -> Tally
        ensures { result ≡ record self { next = number; onward = onward } }
    {
        Tally {
            next: number,
            onward,
            ..self
        }
    }

    /// The tally after one more request, which is refused where it is the chosen one.
    fn asked(self) -> Tally
        ensures refused { self.next ≡ 1 → result.live ≡ self.live }
        ensures nearer { 2 ≤ self.next → result.next ≡ self.next - 1 }
        ensures never { self.next ≡ 0 → result.next ≡ 0 }
        ensures kept { result.onward ≡ self.onward }
    {
        match self.next {
            0 => Tally {
                live: self.live.saturating_add(1),
                ..self
            },
            1 => Tally {
                refused: self.refused.saturating_add(1),
                next: u64::from(self.onward),
                ..self
            },
            next => Tally {
                live: self.live.saturating_add(1),
                next: next - 1,
                ..self
            },
        }
    }
}

/// Counts a request, and says whether it is refused.
pub(crate) fn refuses(tally: &Cell<Tally>) -> bool {
    let before = tally.get();
    tally.set(before.asked());
    before.next == 1
}

/// Counts a block that is given back.
pub(crate) fn gives_back(tally: &Cell<Tally>) {
    let before = tally.get();
    tally.set(Tally {
        live: before.live.saturating_sub(1),
        ..before
    });
}
