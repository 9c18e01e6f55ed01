// Why a run of two worlds for all names does not end with its report, and the line that tells it.
ghost use Rattle.std.specs.Prelude.{◌≡◌, IfOk, string_bytes, Some};
ghost use Rattle.iam_app.specs.EveryChangesFault.{every_changes_text};
ghost use Rattle.iam_app.specs.declared.every_changes_fault.EveryChangesFault.TheVariants as e;

use crate::OutOfMemory;
use crate::changes_fault::ChangesFault;
use crate::fault::RunFault;
use crate::input::InputFault;
use crate::names_fault::NamesFault;
use iam_asked::{FaultyText, TextFault};
use iam_every::EveryFault;
use std::alloc::Global;
use std::fmt::{self, Display, Formatter, Write};
use thiserror::Error;

/// Why a run of two worlds for all names does not end with its report.
#[derive(Clone, Copy, Debug, PartialEq, Eq, Error)]
pub enum EveryChangesFault {
    /// 1 to 4 and 7 to 9, as of a run of two worlds: 1, that a world or the lines can't be read; 2, 3, 4, 7, 8 and 9.
    Changes(ChangesFault),
    /// 11: The report would have over 16,777,216 rows.
    Kinds,
    /// 12: A line says nothing of texts, by the world after.
    Texts(FaultyText),
    /// 12: A line says what the world before does not know: it does not have the resource's text, or the account.
    BeforeTexts(FaultyText),
    /// 12: The lines have over 8,388,608 bytes.
    LongTexts,
}

impl From<OutOfMemory> for EveryChangesFault {
    ghost use Rattle.iam_app.specs.declared.changes_fault.ChangesFault.TheVariants as c;
    ghost use Rattle.iam_app.specs.declared.fault.RunFault.TheVariants as f;

    ghost from_gives = { λ _ fault. fault ≡ e.Changes (c.Run f.OutOfMemory) };

    fn from(_: OutOfMemory) -> EveryChangesFault {
        EveryChangesFault::from(RunFault::OutOfMemory)
    }
}

impl From<RunFault> for EveryChangesFault {
    ghost use Rattle.iam_app.specs.declared.changes_fault.ChangesFault.TheVariants as c;

    ghost from_gives = { λ run fault. fault ≡ e.Changes (c.Run run) };

    fn from(fault: RunFault) -> EveryChangesFault {
        EveryChangesFault::Changes(ChangesFault::Run(fault))
    }
}

impl From<ChangesFault> for EveryChangesFault {
    ghost from_gives = { λ changes fault. fault ≡ e.Changes changes };

    fn from(fault: ChangesFault) -> EveryChangesFault {
        EveryChangesFault::Changes(fault)
    }
}

impl From<InputFault> for EveryChangesFault {
    ghost use Rattle.iam_app.specs.EveryChangesFault.{fault_of_lines};

    ghost from_gives = { λ input fault. fault ≡ fault_of_lines input };

    fn from(fault: InputFault) -> EveryChangesFault {
        match fault {
            InputFault::Read => EveryChangesFault::from(RunFault::Read),
            InputFault::TooLarge => EveryChangesFault::LongTexts,
            InputFault::OutOfMemory => EveryChangesFault::from(RunFault::OutOfMemory),
        }
    }
}

impl From<FaultyText> for EveryChangesFault {
    ghost use Rattle.iam_app.specs.EveryChangesFault.{fault_of_line};

    ghost from_gives = { λ faulty fault. fault ≡ fault_of_line faulty };

    fn from(faulty: FaultyText) -> EveryChangesFault {
        match faulty.fault {
            TextFault::OutOfMemory => EveryChangesFault::from(RunFault::OutOfMemory),
            _ => EveryChangesFault::Texts(faulty),
        }
    }
}

impl From<EveryFault> for EveryChangesFault {
    ghost use Rattle.iam_app.specs.EveryChangesFault.{fault_of_report};

    ghost from_gives = { λ every fault. fault ≡ fault_of_report every };

    fn from(fault: EveryFault) -> EveryChangesFault {
        match fault {
            EveryFault::TooMany => EveryChangesFault::Kinds,
            EveryFault::OutOfMemory => EveryChangesFault::from(RunFault::OutOfMemory),
        }
    }
}

impl Display for EveryChangesFault {
    ghost output = { λ fault. Some (every_changes_text fault) };

    fn fmt<W: Write>(&self, f: &mut Formatter<W>) -> Result<(), fmt::Error> {
        match *self {
            EveryChangesFault::Changes(fault) => write!(f, "{fault}"),
            EveryChangesFault::Kinds => NamesFault::Kinds.fmt(f),
            EveryChangesFault::Texts(faulty) => NamesFault::Texts(faulty).fmt(f),
            EveryChangesFault::BeforeTexts(faulty) => {
                write!(f, "fault 12 Texts: before at {faulty}")
            }
            EveryChangesFault::LongTexts => NamesFault::LongTexts.fmt(f),
        }
    }
}

/// The line that tells of a fault of a run of two worlds for all names, without a line feed.
pub fn every_changes_fault_line(
    alloc: Global,
    fault: &EveryChangesFault,
) -> Result<String, OutOfMemory>
    ensures { IfOk result (λ line. string_bytes line ≡ every_changes_text fault.now) }
{
    format!(in alloc; "{fault}")
}
