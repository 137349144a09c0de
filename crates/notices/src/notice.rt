use cid::Cid;

/// What a writer tells of one accepted call: which repository it changed, how many writes that one has accepted since,
/// and its root.
#[derive(Clone, Copy, PartialEq, Eq, Debug)]
pub struct Notice {
    /// The writer's number.
    pub writer: u32,
    /// Which accepted call of this writer it is, from 1.
    pub seq: u64,
    /// The repository's number.
    pub repo: u32,
    /// How many writes the repository has accepted, those of this call included.
    pub number: u64,
    /// The repository's root after the call.
    pub root: Cid,
}
