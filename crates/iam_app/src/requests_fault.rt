// Why a run of requests does not end with its report, and the line that tells it.
ghost use Rattle.std.specs.Prelude.{◌≡◌, IfOk, string_bytes, Some};
ghost use Rattle.iam_app.specs.RequestsFault.{requests_text};
ghost use Rattle.iam_app.specs.declared.requests_fault.RequestsFault.TheVariants as r;

use crate::OutOfMemory;
use crate::fault::RunFault;
use iam_asked::{AskFault, FaultyLine};
use std::alloc::Global;
use std::fmt::{self, Display, Formatter, Write};
use thiserror::Error;

/// Why a run of the requests of a file does not end with its report.
#[derive(Clone, Copy, Debug, PartialEq, Eq, Error)]
pub enum RequestsFault {
    /// 1 to 7, as of a run of one world: 1, that the world or the requests can't be read; 2, 3, 4, 6 and 7.
    Run(RunFault),
    /// 10: A line is no request that is asked of the world.
    Request(FaultyLine),
}

impl From<OutOfMemory> for RequestsFault {
    ghost use Rattle.iam_app.specs.declared.fault.RunFault.TheVariants as f;

    ghost from_gives = { λ _ fault. fault ≡ r.Run f.OutOfMemory };

    fn from(_: OutOfMemory) -> RequestsFault {
        RequestsFault::Run(RunFault::OutOfMemory)
    }
}

impl From<RunFault> for RequestsFault {
    ghost from_gives = { λ run fault. fault ≡ r.Run run };

    fn from(fault: RunFault) -> RequestsFault {
        RequestsFault::Run(fault)
    }
}

impl From<AskFault> for RequestsFault {
    ghost use Rattle.iam_app.specs.RequestsFault.{fault_of_ask};

    ghost from_gives = { λ ask fault. fault ≡ fault_of_ask ask };

    fn from(fault: AskFault) -> RequestsFault {
        match fault {
            AskFault::Read => RequestsFault::Run(RunFault::Read),
            AskFault::Line(faulty) => RequestsFault::Request(faulty),
            AskFault::OutOfMemory => RequestsFault::Run(RunFault::OutOfMemory),
        }
    }
}

impl Display for RequestsFault {
    ghost output = { λ fault. Some (requests_text fault) };

    fn fmt<W: Write>(&self, f: &mut Formatter<W>) -> Result<(), fmt::Error> {
        match *self {
            RequestsFault::Run(fault) => write!(f, "{fault}"),
            RequestsFault::Request(faulty) => write!(f, "fault 10 Request: {faulty}"),
        }
    }
}

/// The line that tells of a fault of a run of requests, without a line feed.
pub fn requests_fault_line(alloc: Global, fault: &RequestsFault) -> Result<String, OutOfMemory>
    ensures { IfOk result (λ line. string_bytes line ≡ requests_text fault.now) }
{
    format!(in alloc; "{fault}")
}
