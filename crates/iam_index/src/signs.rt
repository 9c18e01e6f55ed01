// Numbers that are kept under a class and the signature of an action in it.
ghost use Rattle.std.specs.Prelude.{IfSome};
ghost use Rattle.iam_index.specs.Signs.{GainsSign, HasSign};

use iam_columns::{keep, kept, slot_of};

/// A number that is kept under a class and a signature.
#[derive(Clone, Copy)]
pub struct Sign {
    pub class: usize,
    pub word: u64,
    pub number: usize,
}

/// The number that is kept under a class and a signature, where there is one.
pub fn number_signed(signs: &[Option<Sign>], class: usize, word: Option<u64>) -> Option<usize>
    ensures { IfSome result (HasSign signs.now class word) }
{
    let word = word?;
    let sign = kept(signs, sign_slot(class, word, signs.len()))?;
    if sign.class == class && sign.word == word {
        Some(sign.number)
    } else {
        None
    }
}

/// Keeps a number under a class and a signature, where there is one, in place of what is kept in its slot.
pub fn keep_signed(signs: &mut Vec<Option<Sign>>, class: usize, word: Option<u64>, number: usize)
    ensures { GainsSign signs.old.items signs.new.items class word number }
{
    if let Some(word) = word {
        let slot = sign_slot(class, word, signs.len());
        let sign = Sign {
            class,
            word,
            number,
        };
        keep(signs, slot, sign);
    }
}

/// A slot for a class and a signature among so many, a power of two.
fn sign_slot(class: usize, word: u64, slots: usize) -> u64 {
    let mixed = word.wrapping_mul(0x9E37_79B9_7F4A_7C15) >> 32;
    slot_of(class as u64, mixed, slots)
}
