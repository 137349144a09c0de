//! The fan-out of a tree, chosen while the program runs.
ghost use Rattle.std.specs.Prelude.{◌≡◌, ◌≤◌, ◌↔◌, IsSome, IfSome};

/// How many zero bits of a key's digest count for one layer, from 1 to 8: a node has `2 ^ bits` subtrees on average.
#[derive(Clone, Copy, PartialEq, Eq, Debug)]
pub struct Bits {
    number: u8,
    pub ghost least: { 1 ≤ number },
    pub ghost most: { number ≤ 8 },
}

impl Bits {
    /// This number of bits, or `None` where it isn't from 1 to 8.
    pub fn new(number: u8) -> Option<Bits>
        ensures valid { IsSome result ↔ ((1 ≤ number) × (number ≤ 8)) }
        ensures value { IfSome result (λ bits. bits.number ≡ number) }
    {
        if number < 1 || number > 8 {
            return None;
        }
        Some(Bits { number })
    }
    /// How many.
    pub fn number(self) -> u8
        ensures { result ≡ self.number }
    {
        self.number
    }
}

impl Default for Bits {
    ghost is_default = { λ bits. bits.number ≡ 2 };

    /// The AT Protocol's two bits, a fan-out of 4 (AT Protocol repository v3, MST structure).
    fn default() -> Bits {
        Bits { number: 2 }
    }
}
