// Why a run about all names does not end with its report, and the line that tells it.
ghost use Rattle.std.specs.Prelude.{◌≡◌, IfOk, string_bytes, Some};
ghost use Rattle.iam_app.specs.NamesFault.{names_text};
ghost use Rattle.iam_app.specs.declared.names_fault.NamesFault.TheVariants as n;

use crate::OutOfMemory;
use crate::fault::RunFault;
use crate::input::InputFault;
use iam_asked::{FaultyText, TextFault};
use iam_every::EveryFault;
use std::alloc::Global;
use std::fmt::{self, Display, Formatter, Write};
use thiserror::Error;

/// Why a run about all names does not end with its report.
#[derive(Clone, Copy, Debug, PartialEq, Eq, Error)]
pub enum NamesFault {
    /// 1 to 4 and 7, as of a run of one world: 1, that the world or the lines can't be read; 2, 3, 4 and 7.
    Run(RunFault),
    /// 11: The report would have over 16,777,216 rows.
    Kinds,
    /// 12: A line says nothing of texts.
    Texts(FaultyText),
    /// 12: The lines have over 8,388,608 bytes.
    LongTexts,
}

impl From<OutOfMemory> for NamesFault {
    ghost use Rattle.iam_app.specs.declared.fault.RunFault.TheVariants as f;

    ghost from_gives = { λ _ fault. fault ≡ n.Run f.OutOfMemory };

    fn from(_: OutOfMemory) -> NamesFault {
        NamesFault::Run(RunFault::OutOfMemory)
    }
}

impl From<RunFault> for NamesFault {
    ghost from_gives = { λ run fault. fault ≡ n.Run run };

    fn from(fault: RunFault) -> NamesFault {
        NamesFault::Run(fault)
    }
}

impl From<InputFault> for NamesFault {
    ghost use Rattle.iam_app.specs.NamesFault.{fault_of_lines};

    ghost from_gives = { λ input fault. fault ≡ fault_of_lines input };

    fn from(fault: InputFault) -> NamesFault {
        match fault {
            InputFault::Read => NamesFault::Run(RunFault::Read),
            InputFault::TooLarge => NamesFault::LongTexts,
            InputFault::OutOfMemory => NamesFault::Run(RunFault::OutOfMemory),
        }
    }
}

impl From<FaultyText> for NamesFault {
    ghost use Rattle.iam_app.specs.NamesFault.{fault_of_line};

    ghost from_gives = { λ faulty fault. fault ≡ fault_of_line faulty };

    fn from(faulty: FaultyText) -> NamesFault {
        match faulty.fault {
            TextFault::OutOfMemory => NamesFault::Run(RunFault::OutOfMemory),
            _ => NamesFault::Texts(faulty),
        }
    }
}

impl From<EveryFault> for NamesFault {
    ghost use Rattle.iam_app.specs.NamesFault.{fault_of_every};

    ghost from_gives = { λ every fault. fault ≡ fault_of_every every };

    fn from(fault: EveryFault) -> NamesFault {
        match fault {
            EveryFault::TooMany => NamesFault::Kinds,
            EveryFault::OutOfMemory => NamesFault::Run(RunFault::OutOfMemory),
        }
    }
}

impl Display for NamesFault {
    ghost output = { λ fault. Some (names_text fault) };

    fn fmt<W: Write>(&self, f: &mut Formatter<W>) -> Result<(), fmt::Error> {
        match *self {
            NamesFault::Run(fault) => write!(f, "{fault}"),
            NamesFault::Kinds => write!(f, "fault 11 Kinds"),
            NamesFault::Texts(faulty) => write!(f, "fault 12 Texts: {faulty}"),
            NamesFault::LongTexts => write!(f, "fault 12 Texts: 6 TooLarge"),
        }
    }
}

/// The line that tells of a fault of a run about all names, without a line feed.
pub fn names_fault_line(alloc: Global, fault: &NamesFault) -> Result<String, OutOfMemory>
    ensures { IfOk result (λ line. string_bytes line ≡ names_text fault.now) }
{
    format!(in alloc; "{fault}")
}
