// Which of some statements live, as the bits of a number.
ghost use Rattle.std.specs.Prelude.{◌∷◌, ◌↔◌, IfSome, IsTrue, List};
ghost use Rattle.iam_match.specs.Statement.{AccessValue};
ghost use Rattle.iam_decision.specs.Living.{Lives};
ghost use Rattle.iam_decision.specs.Matched.{Placed};
ghost use Rattle.iam_living.specs.Word.{AreBits};

/// How many bits a word has.
pub const BITS: usize = 64;

/// The word of statements that begin with one that lives, or does not; `None` where it has more than 64 bits.
#[inline(always)]
pub fn with_bit(word: u64, lives: bool) -> Option<u64>
    ensures { (access : AccessValue) (s : Placed) (statements : List Placed) → (IsTrue lives ↔ Lives access s)
        → AreBits access statements word → IfSome result (AreBits access (s ∷ statements)) }
{
    let bit: u64 = if lives { 1 } else { 0 };
    word.checked_mul(2)?.checked_add(bit)
}
