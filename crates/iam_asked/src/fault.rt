// Why a line is no request, and the text that tells it.
ghost use Rattle.std.specs.Prelude.{◌≡◌, Some};
ghost use Rattle.iam_asked.specs.declared.fault.AskFault.TheVariants as a;
ghost use Rattle.iam_asked.specs.declared.fault.LineFault.TheVariants as l;

use iam_context::ContextFault;
use iam_text::OutOfMemory;
use std::alloc::AllocFailed;
use std::fmt::{self, Display, Formatter, Write};
use thiserror::Error;

/// Why a line is no request that is asked of a world. A line with several faults is refused by the one with the least number; but
/// `TooMany` comes before all others.
#[derive(Clone, Copy, Debug, PartialEq, Eq, Error)]
pub enum LineFault {
    /// 1: The line is no JSON text that `serde_json` reads.
    NotJson,
    /// 2: It has over 8,388,608 bytes, or is no object with the texts `principal`, `action` and `resource` and at most a `context`
    /// beside them, which is an object of texts, Booleans, whole numbers and lists of these.
    BadShape,
    /// 3: No principal has that text.
    NoPrincipal,
    /// 4: Several principals have it.
    SeveralPrincipals,
    /// 5: No action is that text, not even without regard to case.
    NoAction,
    /// 6: No resource has that ARN.
    NoResource,
    /// 7: Several resources have it.
    SeveralResources,
    /// 8: The context gives a key twice, or one that the world, the principal or the resource gives too, or one that is derived.
    Context(ContextFault),
    /// 9: It is line 16,777,216, counted from 0.
    TooMany,
    /// 10: With it the contexts are larger than 67,108,864.
    ContextsTooLarge,
    /// 11: The allocator refused a growth.
    OutOfMemory,
}

/// A line that is no request.
#[derive(Clone, Copy, Debug, PartialEq, Eq, Error)]
pub struct FaultyLine {
    /// Its number, from 0 on.
    pub line: u64,
    pub fault: LineFault,
}

/// Why requests are not read.
#[derive(Clone, Copy, Debug, PartialEq, Eq, Error)]
pub enum AskFault {
    /// The reader failed.
    #[error("can't be read")]
    Read,
    /// The first line that is no request, with its least fault.
    #[error("{0}")]
    Line(FaultyLine),
    /// The allocator refused a growth.
    #[error("out of memory")]
    OutOfMemory,
}

impl LineFault {
    ghost use Rattle.iam_asked.specs.Fault.{line_name_of, line_number_of};

    /// The number of the fault.
    pub fn number(&self) -> u32
        ensures { result ≡ line_number_of self.now }
    {
        match self {
            LineFault::NotJson => 1,
            LineFault::BadShape => 2,
            LineFault::NoPrincipal => 3,
            LineFault::SeveralPrincipals => 4,
            LineFault::NoAction => 5,
            LineFault::NoResource => 6,
            LineFault::SeveralResources => 7,
            LineFault::Context(_) => 8,
            LineFault::TooMany => 9,
            LineFault::ContextsTooLarge => 10,
            LineFault::OutOfMemory => 11,
        }
    }

    /// The name of the fault, as it is declared.
    pub fn name(&self) -> &'static str
        ensures { result.now ≡ line_name_of self.now }
    {
        match self {
            LineFault::NotJson => "NotJson",
            LineFault::BadShape => "BadShape",
            LineFault::NoPrincipal => "NoPrincipal",
            LineFault::SeveralPrincipals => "SeveralPrincipals",
            LineFault::NoAction => "NoAction",
            LineFault::NoResource => "NoResource",
            LineFault::SeveralResources => "SeveralResources",
            LineFault::Context(_) => "Context",
            LineFault::TooMany => "TooMany",
            LineFault::ContextsTooLarge => "ContextsTooLarge",
            LineFault::OutOfMemory => "OutOfMemory",
        }
    }
}

impl Display for LineFault {
    ghost use Rattle.iam_asked.specs.Fault.{fault_text};

    ghost output = { λ fault. Some (fault_text fault) };

    fn fmt<W: Write>(&self, f: &mut Formatter<W>) -> Result<(), fmt::Error> {
        let number = self.number();
        let name = self.name();
        match self {
            LineFault::Context(fault) => write!(f, "{number} {name}: {fault}"),
            _ => write!(f, "{number} {name}"),
        }
    }
}

impl Display for FaultyLine {
    ghost use Rattle.iam_asked.specs.Fault.{line_text};

    ghost output = { λ faulty. Some (line_text faulty) };

    fn fmt<W: Write>(&self, f: &mut Formatter<W>) -> Result<(), fmt::Error> {
        let line = self.line;
        let fault = self.fault;
        write!(f, "line {line}: {fault}")
    }
}

impl From<OutOfMemory> for LineFault {
    ghost from_gives = { λ _ fault. fault ≡ l.OutOfMemory };

    fn from(_: OutOfMemory) -> LineFault {
        LineFault::OutOfMemory
    }
}

impl<T: Drop> From<AllocFailed<T>> for LineFault {
    ghost from_gives = { λ _ fault. fault ≡ l.OutOfMemory };

    fn from(_: AllocFailed<T>) -> LineFault {
        LineFault::OutOfMemory
    }
}

impl From<ContextFault> for LineFault {
    ghost use Rattle.iam_asked.specs.Code.Reading.{fault_of};

    ghost from_gives = { λ context fault. fault ≡ fault_of context };

    fn from(fault: ContextFault) -> LineFault {
        match fault {
            ContextFault::OutOfMemory => LineFault::OutOfMemory,
            ContextFault::KeyTwice | ContextFault::DerivedKeyGiven => LineFault::Context(fault),
        }
    }
}

impl From<OutOfMemory> for AskFault {
    ghost from_gives = { λ _ fault. fault ≡ a.OutOfMemory };

    fn from(_: OutOfMemory) -> AskFault {
        AskFault::OutOfMemory
    }
}
