//! DAG-CBOR values and their spellings.

ghost use Rattle.spec.specs.Laws.DagCbor.{ValueReadsBack, OnlySpellingsAreRead, NoSpellingBeginsAnother};

/// A lawful value is read from its spelling.
pub fn value_reads_back()
    ensures { ValueReadsBack }
{}

/// Bytes that are read are the spelling of what was read, which is lawful.
pub fn only_spellings_are_read()
    ensures { OnlySpellingsAreRead }
{}

/// No spelling begins another, and no two values are spelled alike.
pub fn no_spelling_begins_another()
    ensures { NoSpellingBeginsAnother }
{}
