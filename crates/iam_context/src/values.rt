// The entries of a part: the names of keys, and their values.
ghost use Rattle.std.specs.Prelude.{◌≡◌, ◌∷◌, [], List, ℕ};
ghost use Rattle.iam_context.specs.Code.Entries.{derived_name, written_name, held_values};

use iam_text::Text;
use std::marker::Model;
use std::slice;

/// The name of a key, which a contract sees as its bytes.
#[derive(Debug, Drop)]
pub struct KeyName {
    written: Written,
}

/// A derived key: one that follows from requester, resource or moment.
///
/// AWS IAM User Guide, "AWS global condition context keys".
#[derive(Clone, Copy, Debug, PartialEq, Eq)]
pub enum DerivedKey {
    PrincipalArn,
    Username,
    PrincipalType,
    PrincipalAccount,
    ResourceAccount,
    CurrentTime,
    EpochTime,
}

#[derive(Debug, Drop)]
enum Written {
    Derived(DerivedKey),
    Given(Text),
}

/// The values of a key, which a contract sees as their list. One alone takes no memory of its own.
#[derive(Debug, Drop)]
pub struct Values {
    held: HeldValues,
}

#[derive(Debug, Drop)]
enum HeldValues {
    One(Text),
    Many(Vec<Text>),
}

impl Model for KeyName {
    ghost Value = { List ℕ };

    ghost view = { λ name. written_name name.written };
}

impl DerivedKey {
    /// Its name.
    pub fn name(self) -> &'static str
        ensures { result.now ≡ derived_name self }
    {
        match self {
            DerivedKey::PrincipalArn => "aws:PrincipalArn",
            DerivedKey::Username => "aws:username",
            DerivedKey::PrincipalType => "aws:PrincipalType",
            DerivedKey::PrincipalAccount => "aws:PrincipalAccount",
            DerivedKey::ResourceAccount => "aws:ResourceAccount",
            DerivedKey::CurrentTime => "aws:CurrentTime",
            DerivedKey::EpochTime => "aws:EpochTime",
        }
    }
}

impl KeyName {
    /// The name of a derived key. It takes no memory.
    pub fn derived(key: DerivedKey) -> KeyName
        ensures { result ≡ derived_name key }
    {
        KeyName {
            written: Written::Derived(key),
        }
    }

    /// A name as a world gives it.
    pub fn given(name: Text) -> KeyName
        ensures { result ≡ name }
    {
        KeyName {
            written: Written::Given(name),
        }
    }

    /// The name.
    #[inline]
    pub fn as_str(&self) -> &str
        ensures { result.now ≡ self.now }
    {
        match &self.written {
            Written::Derived(key) => key.name(),
            Written::Given(name) => name.as_str(),
        }
    }
}

impl Model for Values {
    ghost Value = { List (List ℕ) };

    ghost view = { λ values. held_values values.held };
}

impl Values {
    /// One value.
    pub fn one(value: Text) -> Values
        ensures { result ≡ value ∷ [] }
    {
        Values {
            held: HeldValues::One(value),
        }
    }

    /// These values.
    pub fn from_vec(values: Vec<Text>) -> Values
        ensures { result ≡ values.items }
    {
        Values {
            held: HeldValues::Many(values),
        }
    }

    /// The values, in order.
    #[inline]
    pub fn as_slice(&self) -> &[Text]
        ensures { result.now ≡ self.now }
    {
        match &self.held {
            HeldValues::One(value) => slice::from_ref(value),
            HeldValues::Many(values) => values.as_slice(),
        }
    }
}
