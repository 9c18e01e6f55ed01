// What is certain.
ghost use Rattle.std.specs.Prelude.{◌≡◌};
ghost use Rattle.iam_open.specs.Code.Certain.{both, certain_of, either};

/// Whether something holds in several contexts.
#[derive(Clone, Copy, Debug, PartialEq, Eq)]
pub enum Certain {
    /// It holds in each of them.
    Always,
    /// It holds in none of them.
    Never,
    /// It is not known.
    Open,
}

impl Certain {
    /// Of what holds in all of them, or in none.
    pub fn of(holds: bool) -> Certain
        ensures { result ≡ certain_of holds }
    {
        if holds {
            Certain::Always
        } else {
            Certain::Never
        }
    }

    /// Whether both hold.
    pub fn and(self, other: Certain) -> Certain
        ensures { result ≡ both self other }
    {
        match (self, other) {
            (Certain::Never, _) | (_, Certain::Never) => Certain::Never,
            (Certain::Always, Certain::Always) => Certain::Always,
            _ => Certain::Open,
        }
    }

    /// Whether one of them holds.
    pub fn or(self, other: Certain) -> Certain
        ensures { result ≡ either self other }
    {
        match (self, other) {
            (Certain::Always, _) | (_, Certain::Always) => Certain::Always,
            (Certain::Never, Certain::Never) => Certain::Never,
            _ => Certain::Open,
        }
    }
}
