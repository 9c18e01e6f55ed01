// What requests share, kept by an engine itself or lent to it.
use iam_layers::Shared;
use std::marker::Model;

/// Who keeps what requests share.
#[derive(Drop)]
pub enum Keeper<'a> {
    /// The engine itself.
    Own(Shared<'a>),
    /// A survey.
    Lent(&'a Shared<'a>),
}

/// What requests share, which an engine found itself or a survey lends it.
#[derive(Drop)]
pub struct Held<'a> {
    keeper: Keeper<'a>,
}

impl<'a> Model for Held<'a> {
    ghost use Rattle.iam_decision.specs.Living.{SharedValue};

    ghost Value = { SharedValue };

    ghost use Rattle.iam_classes.specs.Code.Held.{kept_by};

    ghost view = { λ held. kept_by held.keeper };
}

impl<'a> Held<'a> {
    ghost use Rattle.std.specs.Prelude.{◌≡◌};

    /// What an engine found itself.
    pub fn own(shared: Shared<'a>) -> Held<'a>
        ensures { result ≡ shared.entry }
    {
        Held {
            keeper: Keeper::Own(shared),
        }
    }

    /// What a survey lends.
    pub fn lent(shared: &'a Shared<'a>) -> Held<'a>
        ensures { result ≡ shared.entry.now }
    {
        Held {
            keeper: Keeper::Lent(shared),
        }
    }

    /// What the requests share.
    pub fn get(&self) -> &Shared<'a>
        ensures { result.now ≡ self.now }
    {
        match &self.keeper {
            Keeper::Own(shared) => shared,
            Keeper::Lent(shared) => shared,
        }
    }
}
