// Numbers that are kept under two others.
ghost use Rattle.std.specs.Prelude.{◌≡◌, ◌<◌, ◌^◌, IfSome, Some, length};
ghost use Rattle.iam_columns.specs.Slots.{GainsOnly, Keeps};
ghost use Rattle.iam_columns.specs.declared.numbered.Numbered.{Numbered};

use crate::slots::{keep, kept};

/// A number that is kept under two others.
#[derive(Clone, Copy)]
pub struct Numbered {
    pub one: u32,
    pub other: u32,
    pub number: u32,
}

/// The number that a slot keeps under these two.
#[inline(always)]
pub fn number_in(slots: &[Option<Numbered>], slot: u64, one: u64, other: u64) -> Option<usize>
    ensures found { IfSome result (λ number. Keeps slots.now slot (record { one = one; other = other; number = number })) }
    ensures all { (it : Numbered) → Keeps slots.now slot it → it.one ≡ one → it.other ≡ other → result ≡ Some it.number }
{
    let it = kept(slots, slot)?;
    if it.one as u64 == one && it.other as u64 == other {
        Some(it.number as usize)
    } else {
        None
    }
}

/// Keeps a number under two others in a slot, where all three have 32 bits.
pub fn keep_number(
    slots: &mut Vec<Option<Numbered>>,
    slot: u64,
    one: u64,
    other: u64,
    number: usize,
)
    ensures gains { GainsOnly slots.old.items slots.new.items (record { one = one; other = other; number = number }) }
    ensures put { one < 2 ^ 32 → other < 2 ^ 32 → number < 2 ^ 32 → slot < length slots.old.items
        → Keeps slots.new.items slot (record { one = one; other = other; number = number }) }
    ensures slots { length slots.new.items ≡ length slots.old.items }
{
    if let Some(it) = under(one, other, number) {
        keep(slots, slot, it);
    }
}

/// The number under these two, where all three have 32 bits.
fn under(one: u64, other: u64, number: usize) -> Option<Numbered>
    ensures is { IfSome result (λ it. it ≡ record { one = one; other = other; number = number }) }
    ensures all { one < 2 ^ 32 → other < 2 ^ 32 → number < 2 ^ 32 → result ≡ Some (record { one = one; other = other; number = number }) }
{
    Some(Numbered {
        one: u32::try_from(one).ok()?,
        other: u32::try_from(other).ok()?,
        number: u32::try_from(number).ok()?,
    })
}
