// Why there is no matrix.
ghost use Rattle.std.specs.Prelude.{◌≡◌, Some};

use iam_text::OutOfMemory;
use std::fmt::{self, Display, Formatter, Write};
use thiserror::Error;

/// Why there is no matrix.
#[derive(Clone, Copy, Debug, PartialEq, Eq, Error)]
pub enum MatrixFault {
    /// 1: No worker, or over 64.
    Workers,
    /// 2: The allocator refused a growth.
    OutOfMemory,
}

impl Display for MatrixFault {
    ghost use Rattle.iam_matrix.specs.Fault.{matrix_text};

    ghost output = { λ fault. Some (matrix_text fault) };

    fn fmt<W: Write>(&self, f: &mut Formatter<W>) -> Result<(), fmt::Error> {
        match self {
            MatrixFault::Workers => write!(f, "1 Workers"),
            MatrixFault::OutOfMemory => write!(f, "2 OutOfMemory"),
        }
    }
}

impl From<OutOfMemory> for MatrixFault {
    ghost use Rattle.iam_matrix.specs.declared.fault.MatrixFault.TheVariants as m;

    ghost from_gives = { λ _ fault. fault ≡ m.OutOfMemory };

    fn from(_: OutOfMemory) -> MatrixFault {
        MatrixFault::OutOfMemory
    }
}
