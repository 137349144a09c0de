//! The types at the AT Protocol's two zero bits a layer.

use crate::host::{Host, Opened};
use crate::version::Receipt;
use crate::writer::Writer;
use std::alloc::Global;

/// A host of repositories of the AT Protocol (repository v3, MST structure: two zero bits a layer).
pub type AtprotoHost<D, A = Global> = Host<D, 2, A>;

/// Such a host that was opened.
pub type AtprotoOpened<D, A = Global> = Opened<D, 2, A>;

/// A writer of such a host.
pub type AtprotoWriter<'a, D, A = Global> = Writer<'a, D, 2, A>;

/// A receipt of a version of such a host.
pub type AtprotoReceipt<D, A = Global> = Receipt<D, 2, A>;
