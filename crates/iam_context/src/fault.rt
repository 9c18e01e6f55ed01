// Why parts of a context can't be joined.
ghost use Rattle.std.specs.Prelude.{◌≡◌, Some};
ghost use Rattle.iam_context.specs.ContextFault.{context_number_of, context_name_of, context_text};
ghost use Rattle.iam_context.specs.declared.fault.ContextFault.TheVariants as f;

use iam_text::OutOfMemory;
use std::alloc::AllocFailed;
use std::fmt::{self, Display, Formatter, Write};
use thiserror::Error;

/// Why parts are no context. Parts with several faults are refused by the one with the least number.
#[derive(Clone, Copy, Debug, PartialEq, Eq, Error)]
pub enum ContextFault {
    /// 1: A key stands twice, compared without regard to case.
    KeyTwice,
    /// 2: A key that follows from requester, resource or moment is given.
    DerivedKeyGiven,
    /// 3: The allocator refused a growth.
    OutOfMemory,
}

impl ContextFault {
    /// The number of the fault.
    pub fn number(&self) -> u32
        ensures { result ≡ context_number_of self.now }
    {
        match self {
            ContextFault::KeyTwice => 1,
            ContextFault::DerivedKeyGiven => 2,
            ContextFault::OutOfMemory => 3,
        }
    }

    /// The name of the fault, as it is declared.
    pub fn name(&self) -> &'static str
        ensures { result.now ≡ context_name_of self.now }
    {
        match self {
            ContextFault::KeyTwice => "KeyTwice",
            ContextFault::DerivedKeyGiven => "DerivedKeyGiven",
            ContextFault::OutOfMemory => "OutOfMemory",
        }
    }
}

impl Display for ContextFault {
    ghost output = { λ fault. Some (context_text fault) };

    fn fmt<W: Write>(&self, f: &mut Formatter<W>) -> Result<(), fmt::Error> {
        let number = self.number();
        let name = self.name();
        write!(f, "{number} {name}")
    }
}

impl From<OutOfMemory> for ContextFault {
    ghost from_gives = { λ _ fault. fault ≡ f.OutOfMemory };

    fn from(_: OutOfMemory) -> ContextFault {
        ContextFault::OutOfMemory
    }
}

impl<T: Drop> From<AllocFailed<T>> for ContextFault {
    ghost from_gives = { λ _ fault. fault ≡ f.OutOfMemory };

    fn from(_: AllocFailed<T>) -> ContextFault {
        ContextFault::OutOfMemory
    }
}
