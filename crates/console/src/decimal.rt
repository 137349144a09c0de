//! Whole numbers as text.
ghost use Rattle.std.specs.Prelude.{Some, decimal};

use itoa::Buffer;
use std::fmt;

/// A number that is shown in decimal digits.
#[derive(Drop)]
pub struct Decimal(pub u64);

impl fmt::Display for Decimal {
    ghost output = { λ number. Some (decimal number.0) };

    fn fmt<W: fmt::Write>(&self, f: &mut fmt::Formatter<W>) -> fmt::Result {
        f.write_str(Buffer::new().format(self.0))
    }
}
