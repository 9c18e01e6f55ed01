// Which part of a context has a fault.
ghost use Rattle.std.specs.Prelude.{◌≡◌};
ghost use Rattle.iam_world_context.specs.declared.fault.PartFault.TheVariants as p;

use iam_context::ContextFault;
use iam_shape::Path;
use iam_text::OutOfMemory;
use std::alloc::AllocFailed;
use thiserror::Error;

/// Why the contexts of a document are not read.
#[derive(Clone, Copy, Debug, PartialEq, Eq, Error)]
pub enum PartFault {
    /// The context at this path gives a key twice, or one that is derived. It is the first such context, and this is
    /// its first fault.
    #[error("{0}: {1}")]
    At(Path, ContextFault),
    /// The allocator refused a growth.
    #[error("out of memory")]
    OutOfMemory,
}

impl From<OutOfMemory> for PartFault {
    ghost from_gives = { λ _ fault. fault ≡ p.OutOfMemory };

    fn from(_: OutOfMemory) -> PartFault {
        PartFault::OutOfMemory
    }
}

impl<T: Drop> From<AllocFailed<T>> for PartFault {
    ghost from_gives = { λ _ fault. fault ≡ p.OutOfMemory };

    fn from(_: AllocFailed<T>) -> PartFault {
        PartFault::OutOfMemory
    }
}
