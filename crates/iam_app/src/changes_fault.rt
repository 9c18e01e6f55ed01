// Why a run of two worlds does not end with its report, and the line that tells it.
ghost use Rattle.std.specs.Prelude.{◌≡◌, IfOk, string_bytes, Some};
ghost use Rattle.iam_app.specs.ChangesFault.{changes_text, side_word};
ghost use Rattle.iam_app.specs.declared.changes_fault.ChangesFault.TheVariants as c;

use crate::OutOfMemory;
use crate::fault::RunFault;
use iam_changes::Twice;
use iam_layers::WorldFault;
use std::alloc::Global;
use std::fmt::{self, Display, Formatter, Write};
use thiserror::Error;

/// One of two worlds.
#[derive(Clone, Copy, Debug, PartialEq, Eq)]
pub enum Side {
    /// The world before.
    Before,
    /// The world after.
    After,
}

impl Side {
    /// The word that a line has for it.
    pub fn word(self) -> &'static str
        ensures { result.now ≡ side_word self }
    {
        match self {
            Side::Before => "before",
            Side::After => "after",
        }
    }
}

/// Why a run of two worlds does not end with its report.
#[derive(Clone, Copy, Debug, PartialEq, Eq, Error)]
pub enum ChangesFault {
    /// 1 to 7, as of a run of one world: 1, that one of the inputs can't be read; 2, that the world after is none; 3, 4, 6 and 7.
    Run(RunFault),
    /// 8: A text stands twice among the principals, the actions or the resources of a world.
    Twice(Side, Twice),
    /// 9: The world before is none.
    Before(WorldFault),
}

impl From<OutOfMemory> for ChangesFault {
    ghost use Rattle.iam_app.specs.declared.fault.RunFault.TheVariants as f;

    ghost from_gives = { λ _ fault. fault ≡ c.Run f.OutOfMemory };

    fn from(_: OutOfMemory) -> ChangesFault {
        ChangesFault::Run(RunFault::OutOfMemory)
    }
}

impl From<RunFault> for ChangesFault {
    ghost from_gives = { λ run fault. fault ≡ c.Run run };

    fn from(fault: RunFault) -> ChangesFault {
        ChangesFault::Run(fault)
    }
}

impl Display for ChangesFault {
    ghost output = { λ fault. Some (changes_text fault) };

    fn fmt<W: Write>(&self, f: &mut Formatter<W>) -> Result<(), fmt::Error> {
        match *self {
            ChangesFault::Run(fault) => write!(f, "{fault}"),
            ChangesFault::Twice(side, twice) => {
                let word = side.word();
                write!(f, "fault 8 Twice: {word} at {twice}")
            }
            ChangesFault::Before(fault) => write!(f, "fault 9 Before: {fault}"),
        }
    }
}

/// The line that tells of a fault of a run of two worlds, without a line feed.
pub fn changes_fault_line(alloc: Global, fault: &ChangesFault) -> Result<String, OutOfMemory>
    ensures { IfOk result (λ line. string_bytes line ≡ changes_text fault.now) }
{
    format!(in alloc; "{fault}")
}
