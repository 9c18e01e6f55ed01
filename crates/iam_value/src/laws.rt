// Laws of the definitions, for the crates above: a text has at most one value of each kind, and an instant one text.
ghost use Rattle.std.specs.Prelude.{◌≡◌, ℕ, ℤ, List, Bool};
ghost use Rattle.iam_value.specs.Address.{Block, IsRange};
ghost use Rattle.iam_value.specs.Moment.{IsMoment, IsStamp};
ghost use Rattle.iam_value.specs.Values.{IsBase64, IsTruth, IsWhole};

/// A text is at most one whole number.
pub fn one_whole()
    ensures { (text : List ℕ) (value other : ℤ) → IsWhole text value → IsWhole text other → value ≡ other }
{}

/// A text names at most one instant.
pub fn one_moment()
    ensures { (text : List ℕ) (value other : ℤ) → IsMoment text value → IsMoment text other → value ≡ other }
{}

/// A text names at most one truth value.
pub fn one_truth()
    ensures { (text : List ℕ) (value other : Bool) → IsTruth text value → IsTruth text other → value ≡ other }
{}

/// A text encodes at most one list of bytes.
pub fn one_bytes()
    ensures { (text value other : List ℕ) → IsBase64 text value → IsBase64 text other → value ≡ other }
{}

/// A text is at most one range of addresses.
pub fn one_range()
    ensures { (text : List ℕ) (value other : Block) → IsRange text value → IsRange text other → value ≡ other }
{}

/// An instant has at most one text.
pub fn one_stamp()
    ensures { (seconds : ℤ) (text other : List ℕ) → IsStamp seconds text → IsStamp seconds other → text ≡ other }
{}
