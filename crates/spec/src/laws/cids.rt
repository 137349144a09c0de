//! Texts of CIDs, and the CIDs and numbers in links.

ghost use Rattle.spec.specs.Laws.Cids.{TextReadsBack, OnlyTextsAreRead, NumberReadsBack, OnlyNumbersAreRead, LinksHoldCids};

/// A CID of the host's form is read from its text.
pub fn text_reads_back()
    ensures { TextReadsBack }
{}

/// A text that is read is the text of what was read, a CID of the host's form.
pub fn only_texts_are_read()
    ensures { OnlyTextsAreRead }
{}

/// An unsigned LEB128 number of at most nine bytes is read as it was written, whatever follows it.
pub fn number_reads_back()
    ensures { NumberReadsBack }
{}

/// What is read as such a number is its shortest form.
pub fn only_numbers_are_read()
    ensures { OnlyNumbersAreRead }
{}

/// A link may hold a CID of version 0 or of version 1, and nothing else.
pub fn links_hold_cids()
    ensures { LinksHoldCids }
{}
