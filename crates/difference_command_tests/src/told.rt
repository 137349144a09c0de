//! What the command tells of two files.
use cid::Sha256;
use difference_commands::{ChangesCommand, ChangesFault, Form, Values, texts_of};
use std::alloc::Global;

/// The CID of the record `a0`.
pub(crate) const A0: &str = "bafyreigbtj4x7ip5legnfznufuopl4sg4knzc2cof6duas4b3q2fy6swua";

/// The command that tells CIDs of files whose forms are found out.
pub(crate) const CIDS: ChangesCommand = ChangesCommand {
    form: None,
    values: Values::Cids,
    blocks: false,
};

/// That of the record `a161610a`.
pub(crate) const A161610A: &str = "bafyreieq4xe7qrqdnvlccc7djhv4zs6nbtcoq4m7w4ns3ro5kmvmfq6jeu";

/// The command that tells records.
pub(crate) const RECORDS: ChangesCommand = ChangesCommand {
    form: None,
    values: Values::Records,
    blocks: false,
};

/// The command that tells CIDs, and makes a slice of the blocks that come.
pub(crate) const BLOCKS: ChangesCommand = ChangesCommand {
    form: None,
    values: Values::Cids,
    blocks: true,
};

/// The command that reads both files in a form.
pub(crate) fn in_form(form: Form) -> ChangesCommand {
    ChangesCommand {
        form: Some(form),
        values: Values::Cids,
        blocks: false,
    }
}

/// Whether the command tells these lines of two files, and makes no slice.
pub(crate) fn tells(
    alloc: Global,
    command: ChangesCommand,
    old: &[u8],
    new: &[u8],
    lines: &[u8],
) -> bool {
    match texts_of::<Sha256, Global>(command, alloc, old, new) {
        Ok(told) => told.lines.as_slice() == lines && told.slice.is_none(),
        Err(_) => false,
    }
}

/// Whether this slice comes between two files.
pub(crate) fn comes(alloc: Global, old: &[u8], new: &[u8], slice: &[u8]) -> bool {
    match texts_of::<Sha256, Global>(BLOCKS, alloc, old, new) {
        Ok(told) => match &told.slice {
            Some(bytes) => bytes.as_slice() == slice,
            None => false,
        },
        Err(_) => false,
    }
}

/// The fault of two files.
pub(crate) fn fault_of(
    alloc: Global,
    command: ChangesCommand,
    old: &[u8],
    new: &[u8],
) -> Option<ChangesFault> {
    texts_of::<Sha256, Global>(command, alloc, old, new).err()
}
