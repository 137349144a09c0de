//! Scripts as text: reading the lines that a host's workers do, and writing what came of them (the forms are this
//! repository's own).
mod line;
mod lines;
mod report;
mod tokens;
mod words;
mod writes;

pub use lines::ScriptFault;
pub(crate) use lines::script_of;
pub(crate) use report::{
    push_answers, push_blocks, push_notices, push_notices_of, push_repository,
};
