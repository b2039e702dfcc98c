//! What can go wrong.
use thiserror::Error;

/// A limit would have been passed. Nothing was changed.
#[derive(Clone, Copy, Debug, PartialEq, Eq, Error)]
#[error("the limit would be passed")]
pub struct Full;

/// A device failed: a read gave no bytes, or a write took none.
#[derive(Clone, Copy, Debug, PartialEq, Eq, Error)]
#[error("the device failed")]
pub struct Broken;

/// Why the next line can't be given.
#[derive(Clone, Copy, Debug, PartialEq, Eq, Error)]
pub enum LineFault {
    /// The next line doesn't fit into the space.
    #[error("the line is longer than the space")]
    TooLong,
    /// The source failed.
    #[error("the source failed")]
    Broken,
}
