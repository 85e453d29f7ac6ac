//! Why a call of this crate is refused.
use std::alloc::AllocError;
use thiserror::Error;

/// Memory could not be had. The call that answers it has changed nothing.
#[derive(Clone, Copy, Debug, PartialEq, Eq, Error)]
#[error("out of memory")]
pub struct OutOfMemory;

impl From<AllocError> for OutOfMemory {
    fn from(_: AllocError) -> OutOfMemory {
        OutOfMemory
    }
}

/// Why three numbers are no layout: the first rule that is broken.
#[derive(Clone, Copy, Debug, PartialEq, Eq, Error)]
pub enum LayoutFault {
    #[error("the page size is no power of two from 64 to 1048576")]
    BadPageSize,
    #[error("the buffer has no frame")]
    NoFrames,
    #[error("the buffer has more than 1048576 frames or 1073741824 bytes")]
    TooManyFrames,
    #[error("there is no stripe")]
    NoStripes,
    #[error("there are more than 64 stripes, or more stripes than frames")]
    TooManyStripes,
}
