// Places in a world, and their texts.
ghost use Rattle.std.specs.Prelude.{◌≡◌, Some};
ghost use Rattle.iam_shape.specs.Path.{name_text, path_text};

use std::fmt::{self, Display, Formatter, Write};

/// The name of a member of a world document, or of an account, a principal or a resource in it.
#[derive(Clone, Copy, Debug, PartialEq, Eq)]
pub enum Name {
    Moment,
    Accounts,
    Principals,
    Actions,
    Resources,
    Context,
    Id,
    Management,
    Org,
    User,
    Role,
    Session,
    Identity,
    Boundary,
    SessionPolicies,
    Arn,
    Account,
    Policy,
    Sealed,
    Control,
}

impl Name {
    /// The name as the document writes it.
    pub fn as_str(self) -> &'static str
        ensures { result.now ≡ name_text self }
    {
        match self {
            Name::Moment => "moment",
            Name::Accounts => "accounts",
            Name::Principals => "principals",
            Name::Actions => "actions",
            Name::Resources => "resources",
            Name::Context => "context",
            Name::Id => "id",
            Name::Management => "management",
            Name::Org => "org",
            Name::User => "user",
            Name::Role => "role",
            Name::Session => "session",
            Name::Identity => "identity",
            Name::Boundary => "boundary",
            Name::SessionPolicies => "sessionPolicies",
            Name::Arn => "arn",
            Name::Account => "account",
            Name::Policy => "policy",
            Name::Sealed => "sealed",
            Name::Control => "control",
        }
    }
}

/// Where something stands in a world document. Its text is the member names and list numbers from the root, joined
/// by `/`; the root itself is `.`.
#[derive(Clone, Copy, Debug, PartialEq, Eq)]
pub enum Path {
    /// The document itself, `.`.
    Root,
    /// A member of the document, as `moment`.
    Member(Name),
    /// An item of a list of the document, as `principals/0`.
    Item(Name, usize),
    /// A member of such an item, as `principals/0/user`.
    Field(Name, usize, Name),
    /// An item of a list of such an item, as `principals/0/identity/0`.
    Entry(Name, usize, Name, usize),
    /// An item of a list in such a list, as `accounts/0/org/1/2`.
    Leaf(Name, usize, Name, usize, usize),
}

impl Display for Path {
    ghost output = { λ path. Some (path_text path) };

    fn fmt<W: Write>(&self, f: &mut Formatter<W>) -> Result<(), fmt::Error> {
        match *self {
            Path::Root => write!(f, "."),
            Path::Member(name) => write!(f, "{}", name.as_str()),
            Path::Item(list, i) => write!(f, "{}/{i}", list.as_str()),
            Path::Field(list, i, name) => write!(f, "{}/{i}/{}", list.as_str(), name.as_str()),
            Path::Entry(list, i, name, j) => {
                write!(f, "{}/{i}/{}/{j}", list.as_str(), name.as_str())
            }
            Path::Leaf(list, i, name, j, k) => {
                write!(f, "{}/{i}/{}/{j}/{k}", list.as_str(), name.as_str())
            }
        }
    }
}
