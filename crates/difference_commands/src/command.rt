//! The command on two files.

/// How a file says what a repository has.
#[derive(Clone, Copy, PartialEq, Eq, Debug)]
pub enum Form {
    /// A CAR file, the export of a repository (CARv1; AT Protocol repository v3).
    Car,
    /// Lines `KEY CID`, as `tree --paths` reads them.
    Listing,
    /// Lines `KEY HEX`, as `car` reads them.
    Records,
}

/// What the line of a change tells.
#[derive(Clone, Copy, PartialEq, Eq, Debug)]
pub enum Values {
    /// The CIDs of the records before and after it.
    Cids,
    /// The same, and the bytes of both records.
    Records,
}

/// The command `changes`, with what its words say.
#[derive(Clone, Copy, PartialEq, Eq, Debug)]
pub struct ChangesCommand {
    /// The form of both files, or `None` where that of each is found out by what it begins with.
    pub form: Option<Form>,
    /// What the line of a change tells.
    pub values: Values,
    /// Whether the blocks that come by the changes are wanted too, as a slice of a CAR file.
    pub blocks: bool,
}
