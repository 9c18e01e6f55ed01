// Numbers in as few bytes as serve.
ghost use Rattle.std.specs.Prelude.{◌≡◌, ◌++◌, ◌∷◌, ◌<◌, [], ℕ, List, IfOk, OnErr, OnOk, Some, get_or, length, slice_get};

use iam_text::OutOfMemory;
use std::alloc::Global;
use std::marker::Model;

/// Numbers one behind the other. A contract sees their list; each takes a byte until the first above 255 comes, and four
/// bytes from there on.
#[derive(Debug, Drop)]
pub struct Numbers {
    narrow: Vec<u8>,
    wide: Vec<u32>,
}

impl Model for Numbers {
    ghost Value = { List ℕ };

    ghost view = { λ numbers. numbers.narrow.items ++ numbers.wide.items };
}

impl Numbers {
    /// None yet, with room for so many below 256.
    pub fn new(alloc: Global, room: usize) -> Result<Numbers, OutOfMemory>
        ensures { IfOk result (λ numbers. numbers ≡ []) }
    {
        Ok(Numbers {
            narrow: Vec::with_capacity(alloc, room)?,
            wide: Vec::new(alloc),
        })
    }

    /// How many.
    pub fn len(&self) -> usize
        ensures { result ≡ length self.now }
    {
        self.narrow.len() + self.wide.len()
    }

    /// The first numbers, each a byte.
    #[inline]
    pub fn narrow(&self) -> &[u8]
        ensures { (wide : List ℕ) × (self.now ≡ result.now ++ wide) }
    {
        self.narrow.as_slice()
    }

    /// Number i of these.
    #[inline]
    pub fn at(&self, i: usize) -> u32
        requires { i < length self.now }
        ensures { slice_get self.now i ≡ Some result }
    {
        if let Some(number) = self.narrow.get(i) {
            return u32::from(*number);
        }
        self.wide[i - self.narrow.len()]
    }

    /// Puts a number behind the others.
    #[inline(always)]
    pub fn push(&mut self, number: u32) -> Result<(), OutOfMemory>
        ensures ok { OnOk result (self.new ≡ self.old ++ number ∷ []) }
        ensures err { OnErr result (self.new ≡ self.old) }
    {
        if !self.wide.is_empty() {
            self.wide.push(number)?;
            return Ok(());
        }
        let Ok(byte) = u8::try_from(number) else {
            return self.widen(number);
        };
        self.narrow.push(byte)?;
        Ok(())
    }

    /// Puts number i of these once more behind all.
    #[inline(always)]
    pub fn push_again(&mut self, i: usize) -> Result<(), OutOfMemory>
        requires { i < length self.old }
        ensures ok { OnOk result (self.new ≡ self.old ++ get_or self.old i 0 ∷ []) }
        ensures err { OnErr result (self.new ≡ self.old) }
    {
        if !self.wide.is_empty() {
            let number = self.at(i);
            return self.push(number);
        }
        let byte = self.narrow[i];
        self.narrow.push(byte)?;
        Ok(())
    }

    /// Takes the last number away, where there is one.
    pub fn pop(&mut self)
        ensures { (numbers : List ℕ) (last : ℕ) → self.old ≡ numbers ++ last ∷ [] → self.new ≡ numbers }
    {
        if self.wide.pop().is_none() {
            self.narrow.pop();
        }
    }

    /// Puts the first number behind the others that may need four bytes, with room for as many as there was for bytes.
    fn widen(&mut self, number: u32) -> Result<(), OutOfMemory>
        ensures ok { OnOk result (self.new ≡ self.old ++ number ∷ []) }
        ensures err { OnErr result (self.new ≡ self.old) }
    {
        let room = self.narrow.capacity() - self.narrow.len();
        self.wide.reserve(room)?;
        self.wide.push(number)?;
        Ok(())
    }
}
