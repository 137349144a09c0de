//! The types at the AT Protocol's two zero bits a layer.

use crate::closed::{Closed, Uneven};
use std::alloc::Global;

/// A host of repositories of the AT Protocol (repository v3, MST structure: two zero bits a layer) that has closed.
pub type AtprotoClosed<D, A = Global> = Closed<D, 2, A>;

/// Such a host that doesn't close.
pub type AtprotoUneven<D, A = Global> = Uneven<D, 2, A>;
