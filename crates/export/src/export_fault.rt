//! Why there is no CAR.

ghost use Rattle.std.specs.Prelude.{◌≡◌};
ghost use Rattle.export.specs.declared.export_fault.ExportFault.TheVariants as errors;

use crate::out::Failed;
use std::alloc::{AllocError, AllocFailed};
use thiserror::Error;

/// Why there is no CAR, or not all of it. A beginning of it was written.
#[derive(Clone, Copy, Debug, PartialEq, Eq, Error)]
pub enum ExportFault {
    /// The output failed.
    #[error("the output failed")]
    DeviceFault,
    /// Memory was refused.
    #[error("no memory")]
    NoMemory,
}

impl From<Failed> for ExportFault {
    ghost from_gives = { λ _ e. e ≡ errors.DeviceFault };

    fn from(_failed: Failed) -> ExportFault {
        ExportFault::DeviceFault
    }
}

impl From<AllocError> for ExportFault {
    ghost from_gives = { λ _ e. e ≡ errors.NoMemory };

    fn from(_refused: AllocError) -> ExportFault {
        ExportFault::NoMemory
    }
}

impl<T: Drop> From<AllocFailed<T>> for ExportFault {
    ghost from_gives = { λ _ e. e ≡ errors.NoMemory };

    fn from(_refused: AllocFailed<T>) -> ExportFault {
        ExportFault::NoMemory
    }
}
