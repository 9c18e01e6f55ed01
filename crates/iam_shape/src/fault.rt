// Why a world has not the shape.
ghost use Rattle.std.specs.Prelude.{◌≡◌};
ghost use Rattle.iam_shape.specs.declared.fault.ShapeFault.TheVariants as s;

use crate::path::Path;
use iam_text::OutOfMemory;
use std::alloc::AllocFailed;
use thiserror::Error;

/// Why the walk of a document stops.
#[derive(Clone, Copy, Debug, PartialEq, Eq, Error)]
pub enum ShapeFault {
    /// At this path stands a value of the wrong form, a required member is absent, or the object has an unknown
    /// member. It is the first such place.
    #[error("{0} has not the form of a world")]
    At(Path),
    /// The allocator refused a growth.
    #[error("out of memory")]
    OutOfMemory,
}

impl From<OutOfMemory> for ShapeFault {
    ghost from_gives = { λ _ fault. fault ≡ s.OutOfMemory };

    fn from(_: OutOfMemory) -> ShapeFault {
        ShapeFault::OutOfMemory
    }
}

impl<T: Drop> From<AllocFailed<T>> for ShapeFault {
    ghost from_gives = { λ _ fault. fault ≡ s.OutOfMemory };

    fn from(_: AllocFailed<T>) -> ShapeFault {
        ShapeFault::OutOfMemory
    }
}

impl From<Path> for ShapeFault {
    ghost from_gives = { λ path fault. fault ≡ s.At path };

    fn from(path: Path) -> ShapeFault {
        ShapeFault::At(path)
    }
}
