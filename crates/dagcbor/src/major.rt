//! The major types of data items.

ghost use Rattle.std.specs.Prelude.{◌≡◌};
ghost use Rattle.spec.specs.Head.{major_of};
ghost use Rattle.dagcbor.specs.Majors.{major_view};

/// What kind of item a head begins (RFC 8949, section 3.1). As a number, `Major::Map as u8`, it is the major type from 0 to 7.
#[derive(Clone, Copy, Debug, PartialEq, Eq)]
pub enum Major {
    /// The number n, which is the head's argument.
    UnsignedInteger,
    /// The number -1 - n, where n is the argument.
    NegativeInteger,
    /// Bytes, whose number is the argument.
    ByteString,
    /// A text, whose length in bytes is the argument.
    TextString,
    /// A list, the number of whose items is the argument.
    Array,
    /// A map, the number of whose pairs is the argument.
    Map,
    /// An item of which the argument says what it means: 42, that it is a link.
    Tag,
    /// False, true or null. RFC 8949 has also other simple values and floating-point numbers here.
    SimpleValue,
}

/// The major type of a number from 0 to 7.
pub(crate) fn major_of(number: u8) -> Major
    ensures { major_view result ≡ major_of number }
{
    match number {
        0 => Major::UnsignedInteger,
        1 => Major::NegativeInteger,
        2 => Major::ByteString,
        3 => Major::TextString,
        4 => Major::Array,
        5 => Major::Map,
        6 => Major::Tag,
        _ => Major::SimpleValue,
    }
}
