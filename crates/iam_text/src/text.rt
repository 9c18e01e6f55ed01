// A text that contracts see as its bytes.
use crate::OutOfMemory;
use std::alloc::Global;
use std::marker::Model;

/// A text that contracts see as the list of its bytes.
#[derive(Debug, Drop)]
pub struct Text(String);

impl Model for Text {
    ghost use Rattle.std.specs.Prelude.{ℕ, List, string_bytes};

    ghost Value = { List ℕ };

    ghost view = { λ text. string_bytes text.0 };
}

impl Text {
    ghost use Rattle.std.specs.Prelude.{◌≡◌, IfOk, string_bytes};

    /// A copy of the text.
    pub fn read(alloc: Global, text: &str) -> Result<Text, OutOfMemory>
        ensures { IfOk result (λ copy. copy ≡ text.now) }
    {
        Ok(Text(String::from_str(alloc, text)?))
    }

    /// The text itself, uncopied.
    pub fn from_string(text: String) -> Text
        ensures { result ≡ string_bytes text }
    {
        Text(text)
    }

    pub fn as_str(&self) -> &str
        ensures { result.now ≡ self.now }
    {
        self.0.as_str()
    }
}
