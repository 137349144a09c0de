//! What comes of fetching what is missing.

ghost use Rattle.difference.specs.Missing.{RoundsEnd};

/// A source that fetches, round after round, all that `missing` answers has both trees after as many rounds as the higher one
/// has layers: then nothing is missing.
pub fn rounds_end()
    ensures { RoundsEnd }
{}
