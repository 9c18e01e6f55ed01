// Where worlds come from, and what is said of a file that can't be read.
ghost use Rattle.std.specs.Counts.{IsPrefixLen};
ghost use Rattle.std.specs.Prelude.{IfOk, None};

use std::alloc::{AllocError, Global};
use std::fs;
use std::io::{self, Read};
use std::rt::Files;

/// Why a file can't be read.
#[derive(Clone, Copy)]
pub struct NotRead<'a> {
    /// The file's name.
    pub name: &'a str,
    /// What the system says.
    pub reason: io::Error,
}

/// The file of a name. It is opened when it is first read, let go at its end, and keeps why it can't be read.
#[derive(Drop)]
pub struct Source<'a, T: Files> {
    rt: &'a T,
    name: &'a str,
    file: Option<T::File>,
    is_ended: bool,
    reason: Option<io::Error>,
}

impl<'a, T: Files> Source<'a, T> {
    /// The file of this name.
    pub fn of(rt: &'a T, name: &'a str) -> Source<'a, T> {
        Source {
            rt,
            name,
            file: None,
            is_ended: false,
            reason: None,
        }
    }

    /// Why the file can't be read, where opening or reading it failed.
    pub fn not_read(&self) -> Option<NotRead<'a>> {
        match self.reason {
            Some(reason) => Some(NotRead {
                name: self.name,
                reason,
            }),
            None => None,
        }
    }

    /// Reads the file, which is opened first where it is not yet open. At its end it is closed: with a standard input that is
    /// closed it has the number that another world would be read from.
    fn read_open(&mut self, buf: &mut [u8]) -> io::Result<usize>
        ensures { IfOk result (λ count. IsPrefixLen count buf.new) }
    {
        if self.is_ended {
            return Ok(0);
        }
        let mut file = match self.file.take() {
            Some(file) => file,
            None => fs::open(self.rt, self.name)?,
        };
        let count = file.read(buf)?;
        if count == 0 {
            self.is_ended = true;
        } else {
            self.file = Some(file);
        }
        Ok(count)
    }
}

impl<'a, T: Files> Read for Source<'a, T> {
    ghost remaining = { λ _. None };

    fn read(&mut self, buf: &mut [u8]) -> io::Result<usize> {
        let count = self.read_open(buf);
        if let Err(error) = &count {
            self.reason = Some(*error);
        }
        count
    }
}

/// A world's input: standard input, or a file.
#[derive(Drop)]
pub enum Input<'a, R, T: Files> {
    Standard(R),
    File(Source<'a, T>),
}

impl<'a, R: Read + Drop, T: Files> Input<'a, R, T> {
    /// The file of this name; standard input where there is none.
    pub fn of(rt: &'a T, name: &'a Option<String>, standard: R) -> Input<'a, R, T> {
        match name {
            Some(name) => Input::File(Source::of(rt, name.as_str())),
            None => Input::Standard(standard),
        }
    }

    /// Why the file can't be read, where this failed; of standard input nothing.
    pub fn not_read(&self) -> Option<NotRead<'a>> {
        match self {
            Input::Standard(_) => None,
            Input::File(source) => source.not_read(),
        }
    }
}

impl<'a, R: Read, T: Files> Read for Input<'a, R, T> {
    ghost remaining = { λ _. None };

    fn read(&mut self, buf: &mut [u8]) -> io::Result<usize> {
        match self {
            Input::Standard(standard) => standard.read(buf),
            Input::File(source) => source.read(buf),
        }
    }
}

/// The line of a fault, with the file that can't be read and the system's reason.
pub fn line_of_file(alloc: Global, line: &str, file: NotRead<'_>) -> Result<String, AllocError> {
    let name = on_a_line(alloc, file.name)?;
    let reason = file.reason.to_string(alloc)?;
    let words = without_number(reason.as_str());
    format!(in alloc; "{line}: {name}: {words}")
}

/// The words of a reason, without the number that the system gives it.
fn without_number(reason: &str) -> &str {
    match reason.split_once(" (os error ") {
        Some((words, _)) => words,
        None => reason,
    }
}

/// A name as it stands on a line: in quotes and with escapes where a line feed or another sign can't stand as it is.
fn on_a_line(alloc: Global, name: &str) -> Result<String, AllocError> {
    let quoted = format!(in alloc; "{name:?}")?;
    if quoted.len() == name.len().saturating_add(2) {
        return String::from_str(alloc, name);
    }
    Ok(quoted)
}
