// A short text, in place.
ghost use Rattle.std.specs.Prelude.{◌≡◌, ◌≤◌, IfSome, ℕ, List, take};

use std::marker::Model;

/// How many bytes a short text may have: with its length and two marks they fill the 32 bytes that a pattern takes anyway.
const ROOM: usize = 29;

/// A text of at most 29 bytes, which stand in the value itself. Contracts see it as the list of its bytes.
#[derive(Debug, Drop)]
pub struct Short {
    len: u8,
    bytes: [u8; ROOM],
}

impl Model for Short {
    ghost Value = { List ℕ };

    ghost view = { λ short. take short.len short.bytes };

    ghost invariant = { λ short. short.len ≤ 29 };
}

impl Short {
    /// The text, where there is room for it.
    pub fn of(text: &[u8]) -> Option<Short>
        ensures { IfSome result (λ short. short ≡ text.now) }
    {
        if text.len() > ROOM {
            return None;
        }
        let mut bytes = [0; ROOM];
        bytes[..text.len()].copy_from_slice(text);
        Some(Short {
            len: text.len() as u8,
            bytes,
        })
    }

    /// Its bytes.
    #[inline(always)]
    pub fn as_slice(&self) -> &[u8]
        ensures { result.now ≡ self.now }
    {
        &self.bytes[..usize::from(self.len)]
    }
}
