// What the statements say that act on each action: a bit for each, found by going over the statements once.
ghost use Rattle.std.specs.Prelude.{◌≡◌, ◌↔◌, ◌+◌, ◌≤◌, ℕ, All, IsTrue, length};
ghost use Rattle.std.specs.Int.{bit_at};
ghost use Rattle.iam_classes.specs.Batch.{Acts, IsWord};

use iam_decision::{Effect, Grant, Layer, Living, Matched};

/// The `count` actions from number `from` on, beside statements with a row each that reaches so far.
#[derive(Clone, Copy)]
pub(crate) struct Batch<'a> {
    pub(crate) living: &'a [Living<'a>],
    pub(crate) rows: &'a [&'a [bool]],
    pub(crate) from: usize,
    pub(crate) count: usize,
    ghost lengths: { length rows.now ≡ length living.now },
    ghost reach: { All (λ row. from + count ≤ length row.now) rows.now },
    ghost few: { count ≤ 64 },
}

/// A kind of statements.
#[derive(Clone, Copy)]
pub(crate) enum Pick {
    /// The denies.
    Denies,
    /// The allows of this level of the layer.
    Allows(Layer, u32),
    /// The allows of the resource's policy that grant at least this.
    Grants(Grant),
}

impl Pick {
    ghost use Rattle.iam_classes.specs.Code.Lanes.{Picks};

    /// Whether the statement is of this kind.
    fn takes(self, matched: Matched) -> bool
        ensures { IsTrue result ↔ Picks self matched }
    {
        match self {
            Pick::Denies => matched.effect == Effect::Deny,
            Pick::Allows(layer, level) => {
                matched.effect == Effect::Allow
                    && matched.place.layer == layer
                    && matched.place.level == level
            }
            Pick::Grants(least) => {
                matched.effect == Effect::Allow
                    && matched.place.layer == Layer::Resource
                    && matched.grant >= least
            }
        }
    }
}

impl Batch<'_> {
    ghost use Rattle.std.specs.List.{Any};
    ghost use Rattle.iam_classes.specs.Code.Lanes.{Picks, Tells};

    /// The actions that a statement of this kind acts on.
    #[inline(always)]
    pub(crate) fn lanes(self, pick: Pick) -> u64
        ensures { Tells self.entry result (λ found. Any (λ m. Picks pick m) found) }
    {
        let mut lanes: u64 = 0;
        for i in 0..self.living.len() {
            if pick.takes(self.living[i].matched) {
                lanes |= word_of(self.rows[i], self.from, self.count);
            }
        }
        lanes
    }
}

/// What the row says of these actions: a bit for each, from the least on.
#[inline(never)]
fn word_of(row: &[bool], from: usize, count: usize) -> u64
    requires reach { from + count ≤ length row.now }
    requires few { count ≤ 64 }
    ensures { IsWord row.now from count result }
{
    bits(&row[from..from + count])
}

/// A bit for each of them, from the least on.
#[inline(always)]
fn bits(row: &[bool]) -> u64
    requires { length row.now ≤ 64 }
    ensures { (k : ℕ) → (bit_at result k ≡ 1) ↔ Acts row.now k }
{
    let mut word: u64 = 0;
    let mut k = row.len();
    while k > 0 {
        k -= 1;
        word = word * 2 + u64::from(row[k]);
    }
    word
}
