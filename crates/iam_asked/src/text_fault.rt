// Why a line says nothing of texts that a world does not name, and the text that tells it.
ghost use Rattle.std.specs.Prelude.{◌≡◌, Some};
ghost use Rattle.iam_asked.specs.declared.text_fault.TextFault.TheVariants as t;

use iam_text::OutOfMemory;
use std::alloc::AllocFailed;
use std::fmt::{self, Display, Formatter, Write};
use thiserror::Error;

/// Why a line says nothing of texts that a world does not name. A line with several faults is refused by the one with the least number;
/// but `TooMany` comes before all others.
#[derive(Clone, Copy, Debug, PartialEq, Eq, Error)]
pub enum TextFault {
    /// 1: The line is no JSON text that `serde_json` reads.
    NotJson = 1,
    /// 2: It is no object with a text `pattern` and, beside it, either a whole number `like` from 0 on, below 2^64, or a text `account`.
    BadShape = 2,
    /// 3: The world has no resource of that number.
    NoResource = 3,
    /// 4: No account has that id.
    NoAccount = 4,
    /// 5: It is line 65,536, counted from 0.
    TooMany = 5,
    /// 6: There are over 8,388,608 bytes in all. Whoever reads them tells it.
    TooLarge = 6,
    /// 7: The allocator refused a growth.
    OutOfMemory = 7,
}

/// A line that says nothing of texts.
#[derive(Clone, Copy, Debug, PartialEq, Eq, Error)]
pub struct FaultyText {
    /// Its number, from 0 on.
    pub line: u64,
    pub fault: TextFault,
}

impl TextFault {
    ghost use Rattle.iam_asked.specs.TextFault.{text_name_of, text_number_of};

    /// The number of the fault.
    pub fn number(&self) -> u32
        ensures { result ≡ text_number_of self.now }
    {
        *self as u32
    }

    /// The name of the fault, as it is declared.
    pub fn name(&self) -> &'static str
        ensures { result.now ≡ text_name_of self.now }
    {
        match self {
            TextFault::NotJson => "NotJson",
            TextFault::BadShape => "BadShape",
            TextFault::NoResource => "NoResource",
            TextFault::NoAccount => "NoAccount",
            TextFault::TooMany => "TooMany",
            TextFault::TooLarge => "TooLarge",
            TextFault::OutOfMemory => "OutOfMemory",
        }
    }
}

impl Display for TextFault {
    ghost use Rattle.iam_asked.specs.TextFault.{text_fault_text};

    ghost output = { λ fault. Some (text_fault_text fault) };

    fn fmt<W: Write>(&self, f: &mut Formatter<W>) -> Result<(), fmt::Error> {
        let number = self.number();
        let name = self.name();
        write!(f, "{number} {name}")
    }
}

impl Display for FaultyText {
    ghost use Rattle.iam_asked.specs.TextFault.{faulty_text_text};

    ghost output = { λ faulty. Some (faulty_text_text faulty) };

    fn fmt<W: Write>(&self, f: &mut Formatter<W>) -> Result<(), fmt::Error> {
        let line = self.line;
        let fault = self.fault;
        write!(f, "line {line}: {fault}")
    }
}

impl From<OutOfMemory> for TextFault {
    ghost from_gives = { λ _ fault. fault ≡ t.OutOfMemory };

    fn from(_: OutOfMemory) -> TextFault {
        TextFault::OutOfMemory
    }
}

impl<T: Drop> From<AllocFailed<T>> for TextFault {
    ghost from_gives = { λ _ fault. fault ≡ t.OutOfMemory };

    fn from(_: AllocFailed<T>) -> TextFault {
        TextFault::OutOfMemory
    }
}
