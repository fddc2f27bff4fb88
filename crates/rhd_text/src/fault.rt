//! Why a text could not be read.

use thiserror::Error;

/// Why a text could not be read.
#[derive(Clone, Copy, Debug, PartialEq, Eq, Error)]
pub enum TextFault {
    /// The first line that is no line of a session text, counted from 1.
    #[error("line {0} is no line of a session text")]
    BadLine(u32),
    #[error("out of memory")]
    OutOfMemory,
}
