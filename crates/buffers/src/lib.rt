//! Lists and answers in the buffers of a caller that isn't Rattle.
//!
//! A list of byte strings is handed in as its parts, one after another, and the place where each ends: [`slices`] cuts it.
//! Beside it may stand a CID for each part, 36 bytes each: [`pairs`] reads both together. What a call answers is put together
//! by the functions of `answers`, and handed out by [`hand`], which tells the size where the room is too small. The formats
//! are defined in `specs`.
#![tactic(auto)]

mod answers;
mod cids;
mod lists;
mod room;

pub use answers::{
    push_block, push_cids, push_number, push_pair, push_part, push_value, push_values,
};
pub use cids::{cid_in, next_value, pairs, value_in};
pub use lists::slices;
pub use room::{DONE, SMALL, hand};
