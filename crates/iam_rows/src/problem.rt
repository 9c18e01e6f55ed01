// Why rows can't be tried.
use std::alloc::{AllocError, AllocFailed};
use std::io;

/// Why rows can't be tried.
#[derive(Clone, Copy, Debug, PartialEq, Eq)]
pub enum Problem {
    /// A file is not there, or the report can't be written.
    File,
    /// What stands there is no JSON text, or no row.
    Form,
    /// A text that is to be replaced does not stand in the world.
    NotThere,
    /// The allocator refused a growth.
    OutOfMemory,
}

impl Problem {
    pub fn text(self) -> &'static str {
        match self {
            Problem::File => "a file can't be read or written",
            Problem::Form => "a file holds no rows",
            Problem::NotThere => "a text that is to be replaced is not there",
            Problem::OutOfMemory => "out of memory",
        }
    }
}

impl From<AllocError> for Problem {
    fn from(_: AllocError) -> Problem {
        Problem::OutOfMemory
    }
}

impl<T: Drop> From<AllocFailed<T>> for Problem {
    fn from(_: AllocFailed<T>) -> Problem {
        Problem::OutOfMemory
    }
}

impl From<io::Error> for Problem {
    fn from(_: io::Error) -> Problem {
        Problem::File
    }
}

impl From<serde_json::Error> for Problem {
    fn from(_: serde_json::Error) -> Problem {
        Problem::Form
    }
}
