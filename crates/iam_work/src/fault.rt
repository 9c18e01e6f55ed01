// Why work or lanes were not opened.
ghost use Rattle.std.specs.Prelude.{◌≡◌};

use std::alloc::{AllocError, AllocFailed};
use thiserror::Error;

/// Why `Work::open` gave no work, or `Lanes::open` of `iam_lanes` no lanes.
#[derive(Clone, Copy, Debug, PartialEq, Eq, Error)]
pub enum LaneFault {
    /// No seat was asked for.
    #[error("no seat was asked for")]
    NoSeat = 1,
    /// More than 64 seats; of work more than 4,096 grains, of lanes more than 64 of them or more than 4,096 numbers in all
    /// together.
    #[error("more seats, lanes, numbers or grains than there may be")]
    TooMany = 2,
    /// There was no memory.
    #[error("out of memory")]
    OutOfMemory = 3,
}

impl From<AllocError> for LaneFault {
    ghost use Rattle.iam_work.specs.declared.fault.LaneFault.TheVariants.{OutOfMemory};

    ghost from_gives = { λ _ fault. fault ≡ OutOfMemory };

    fn from(_error: AllocError) -> LaneFault {
        LaneFault::OutOfMemory
    }
}

impl<T: Drop> From<AllocFailed<T>> for LaneFault {
    ghost use Rattle.iam_work.specs.declared.fault.LaneFault.TheVariants.{OutOfMemory};

    ghost from_gives = { λ _ fault. fault ≡ OutOfMemory };

    fn from(_failed: AllocFailed<T>) -> LaneFault {
        LaneFault::OutOfMemory
    }
}
