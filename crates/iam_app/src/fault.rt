// Why a run does not end with its report, and the line that tells it.
ghost use Rattle.std.specs.Prelude.{◌≡◌, IfOk, MatchResult, string_bytes, Some};
ghost use Rattle.iam_app.specs.FaultLine.{run_text};
ghost use Rattle.iam_app.specs.declared.fault.RunFault.TheVariants as f;

use crate::OutOfMemory;
use crate::input::InputFault;
use iam_layers::WorldFault;
use iam_matrix::{CutFault, MatrixFault};
use std::alloc::Global;
use std::fmt::{self, Display, Formatter, Write};
use thiserror::Error;

/// Why a run does not end with its report.
#[derive(Clone, Copy, Debug, PartialEq, Eq, Error)]
pub enum RunFault {
    /// 1: The input can't be read.
    Read,
    /// 2: The input is no world.
    World(WorldFault),
    /// 3: The matrix can't be made.
    Matrix(MatrixFault),
    /// 4: The report can't be written.
    Write,
    /// 5: A number of `decide` is not below its axis.
    NoSuchCell,
    /// 6: The cells can't be cut into tiles of this length.
    Cut(CutFault),
    /// 7: The allocator refused a growth.
    OutOfMemory,
}

impl From<OutOfMemory> for RunFault {
    ghost from_gives = { λ _ fault. fault ≡ f.OutOfMemory };

    fn from(_: OutOfMemory) -> RunFault {
        RunFault::OutOfMemory
    }
}

impl From<InputFault> for RunFault {
    ghost use Rattle.iam_app.specs.Output.{fault_of_input};

    ghost from_gives = { λ input fault. fault ≡ fault_of_input input };

    fn from(fault: InputFault) -> RunFault {
        match fault {
            InputFault::Read => RunFault::Read,
            InputFault::TooLarge => RunFault::World(WorldFault::TooLarge),
            InputFault::OutOfMemory => RunFault::OutOfMemory,
        }
    }
}

impl From<MatrixFault> for RunFault {
    ghost from_gives = { λ matrix fault. fault ≡ f.Matrix matrix };

    fn from(fault: MatrixFault) -> RunFault {
        RunFault::Matrix(fault)
    }
}

impl From<CutFault> for RunFault {
    ghost from_gives = { λ cut fault. fault ≡ f.Cut cut };

    fn from(fault: CutFault) -> RunFault {
        RunFault::Cut(fault)
    }
}

impl Display for RunFault {
    ghost output = { λ fault. Some (run_text fault) };

    fn fmt<W: Write>(&self, f: &mut Formatter<W>) -> Result<(), fmt::Error> {
        match *self {
            RunFault::Read => write!(f, "fault 1 Read"),
            RunFault::World(fault) => write!(f, "fault 2 World: {fault}"),
            RunFault::Matrix(fault) => write!(f, "fault 3 Matrix: {fault}"),
            RunFault::Write => write!(f, "fault 4 Write"),
            RunFault::NoSuchCell => write!(f, "fault 5 NoSuchCell"),
            RunFault::Cut(fault) => write!(f, "fault 6 Cut: {fault}"),
            RunFault::OutOfMemory => write!(f, "fault 7 OutOfMemory"),
        }
    }
}

/// The line that tells of a fault, without a line feed.
pub fn fault_line(alloc: Global, fault: &RunFault) -> Result<String, OutOfMemory>
    ensures { IfOk result (λ line. string_bytes line ≡ run_text fault.now) }
{
    format!(in alloc; "{fault}")
}

/// The exit status of a run: 0 done, 1 a fault.
pub fn status(outcome: &Result<(), RunFault>) -> u8
    ensures { MatchResult outcome.now (λ _. result ≡ 0) (λ _. result ≡ 1) }
{
    match outcome {
        Ok(()) => 0,
        Err(_) => 1,
    }
}
