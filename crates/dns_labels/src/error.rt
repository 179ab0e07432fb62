//! Why no name was read or written.

ghost use Rattle.std.specs.Prelude.{◌≡◌};
ghost use Rattle.dns_labels.specs.declared.error.NameError.TheVariants as name_error;
ghost use Rattle.dns_labels.specs.declared.error.NameTextError.TheVariants as text_error;
ghost use Rattle.dns_labels.specs.declared.error.WriteError.TheVariants as write_error;

use std::alloc::{AllocError, AllocFailed};
use thiserror::Error;

/// Why octets or a text are not a name.
#[derive(Clone, Copy, Debug, PartialEq, Eq, Error)]
pub enum NameError {
    /// An allocation failed.
    #[error("out of memory")]
    Memory,
    /// The octets or the text are not a name.
    #[error("invalid domain name")]
    Invalid,
}

impl From<AllocError> for NameError {
    ghost from_gives = { λ _ e. e ≡ name_error.Memory };

    fn from(_e: AllocError) -> NameError {
        NameError::Memory
    }
}

impl<T: Drop> From<AllocFailed<T>> for NameError {
    ghost from_gives = { λ _ e. e ≡ name_error.Memory };

    fn from(_e: AllocFailed<T>) -> NameError {
        NameError::Memory
    }
}

/// Why a text is not a name.
#[derive(Clone, Copy, Debug, PartialEq, Eq, Error)]
pub enum NameTextError {
    /// An allocation failed.
    #[error("out of memory")]
    Memory,
    /// The text is not a name; this says why.
    #[error("{0}")]
    Invalid(&'static str),
}

impl From<AllocError> for NameTextError {
    ghost from_gives = { λ _ e. e ≡ text_error.Memory };

    fn from(_e: AllocError) -> NameTextError {
        NameTextError::Memory
    }
}

/// Why a name was not written.
#[derive(Clone, Copy, Debug, PartialEq, Eq, Error)]
pub enum WriteError {
    /// An allocation failed.
    #[error("out of memory")]
    Memory,
    /// The name needs more octets than are left.
    #[error("maximum buffer size exceeded")]
    Buffer,
}

impl From<AllocError> for WriteError {
    ghost from_gives = { λ _ e. e ≡ write_error.Memory };

    fn from(_e: AllocError) -> WriteError {
        WriteError::Memory
    }
}
