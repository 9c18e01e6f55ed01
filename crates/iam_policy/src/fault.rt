// The faults of a document, and the kinds of documents.
ghost use Rattle.std.specs.Prelude.{◌≡◌, Some};
ghost use Rattle.iam_policy.specs.Table.{number_of, name_of, fault_text, refused_text};

use std::fmt::{self, Display, Formatter, Write};
use thiserror::Error;

/// Why a document is refused; [`Fault::number`] gives the number.
#[derive(Clone, Copy, Debug, PartialEq, Eq, Error)]
pub enum Fault {
    /// The document is not an object.
    NotObject,
    /// A member that the document or the statement does not know.
    UnknownElement,
    /// `Version` is neither absent, which means `2008-10-17`, nor `2008-10-17` or `2012-10-17`.
    BadVersion,
    /// `Statement` is absent.
    NoStatement,
    /// `Statement` is neither an object nor a list, or a statement is not an object.
    BadStatement,
    /// `Sid` is not a text.
    BadSid,
    /// `Sid` is that of an earlier statement.
    DuplicateSid,
    /// `Effect` is absent or neither `Allow` nor `Deny`.
    BadEffect,
    /// Not exactly one of `Action` and `NotAction`.
    ActionCount,
    /// The actions are no text and no list of at least one text, or a text is off the action grammar.
    BadAction,
    /// `Principal` or `NotPrincipal` in a document that has none.
    PrincipalMisplaced,
    /// Neither `Principal` nor `NotPrincipal` in a document that wants one.
    PrincipalMissing,
    /// Both of `Principal` and `NotPrincipal`, or one off the principal grammar; in a document that names everyone,
    /// anything but a `Principal` that is `*`.
    BadPrincipal,
    /// `NotPrincipal` with the effect `Allow`.
    NotPrincipalAllow,
    /// Both of `Resource` and `NotResource`, or neither in a document that wants one.
    ResourceCount,
    /// The resources are no text and no list of texts, or a text is neither `*` nor begins with `arn:`.
    BadResource,
    /// A variable of a resource or of a condition's text that is off its grammar, or stands where none may.
    BadVariable,
    /// A member of `Condition` that is no condition operator.
    UnknownOperator,
    /// `Condition` or what stands under an operator has the wrong form.
    BadCondition,
    /// A value of a condition that is off the operator's grammar.
    BadValue,
    /// Over 4,096 statements, a list of over 4,096 members, or a key of a condition with over 4,096 values.
    TooMany,
    /// The allocator refused a growth.
    OutOfMemory,
}

impl Fault {
    /// The number of the fault, from 1 in the order of declaration.
    pub fn number(self) -> u32
        ensures { result ≡ number_of self }
    {
        self as u32 + 1
    }

    /// The name of the fault, as it is declared.
    pub fn name(self) -> &'static str
        ensures { result.now ≡ name_of self }
    {
        match self {
            Fault::NotObject => "NotObject",
            Fault::UnknownElement => "UnknownElement",
            Fault::BadVersion => "BadVersion",
            Fault::NoStatement => "NoStatement",
            Fault::BadStatement => "BadStatement",
            Fault::BadSid => "BadSid",
            Fault::DuplicateSid => "DuplicateSid",
            Fault::BadEffect => "BadEffect",
            Fault::ActionCount => "ActionCount",
            Fault::BadAction => "BadAction",
            Fault::PrincipalMisplaced => "PrincipalMisplaced",
            Fault::PrincipalMissing => "PrincipalMissing",
            Fault::BadPrincipal => "BadPrincipal",
            Fault::NotPrincipalAllow => "NotPrincipalAllow",
            Fault::ResourceCount => "ResourceCount",
            Fault::BadResource => "BadResource",
            Fault::BadVariable => "BadVariable",
            Fault::UnknownOperator => "UnknownOperator",
            Fault::BadCondition => "BadCondition",
            Fault::BadValue => "BadValue",
            Fault::TooMany => "TooMany",
            Fault::OutOfMemory => "OutOfMemory",
        }
    }
}

impl Display for Fault {
    ghost output = { λ fault. Some (fault_text fault) };

    fn fmt<W: Write>(&self, f: &mut Formatter<W>) -> Result<(), fmt::Error> {
        let number = self.number();
        let name = self.name();
        write!(f, "{number} {name}")
    }
}

/// How a document is read.
#[derive(Clone, Copy, Debug, PartialEq, Eq)]
pub enum Kind {
    /// An identity policy, a permissions boundary or a session policy.
    Identity,
    /// The policy of a resource.
    Resource,
    /// An organisation policy.
    Org,
    /// A resource control policy.
    Control,
}

/// Whom each statement of a document names by `Principal` or `NotPrincipal`.
#[derive(Clone, Copy)]
pub enum PrincipalRule {
    /// It has neither element.
    Nobody,
    /// It has one of them.
    Somebody,
    /// It has `Principal`, which is everyone: `*`, alone or under `AWS`.
    Everyone,
}

impl Kind {
    ghost use Rattle.iam_policy.specs.Fault.{principal_rule, wants_resource, wants_distinct_sids};

    /// Whether each statement must have `Resource` or `NotResource`.
    pub(crate) fn wants_resource(self) -> bool
        ensures { result ≡ wants_resource self }
    {
        matches!(self, Kind::Identity | Kind::Org | Kind::Control)
    }

    /// Whom each statement names.
    pub(crate) fn principal_rule(self) -> PrincipalRule
        ensures { result ≡ principal_rule self }
    {
        match self {
            Kind::Identity | Kind::Org => PrincipalRule::Nobody,
            Kind::Resource => PrincipalRule::Somebody,
            Kind::Control => PrincipalRule::Everyone,
        }
    }

    /// Whether no two statements may have the same `Sid`.
    pub(crate) fn wants_distinct_sids(self) -> bool
        ensures { result ≡ wants_distinct_sids self }
    {
        matches!(self, Kind::Identity | Kind::Org)
    }
}

/// Why a document is not read: want of memory, or its least fault, by place and then by number. The document itself
/// comes first, then each statement in turn.
#[derive(Clone, Copy, Debug, PartialEq, Eq, Error)]
pub struct Refused {
    /// The statement's number, from 0; `None` for a fault of the document and for want of memory.
    pub statement: Option<u32>,
    /// The least fault there.
    pub fault: Fault,
}

impl Display for Refused {
    ghost output = { λ refused. Some (refused_text refused) };

    fn fmt<W: Write>(&self, f: &mut Formatter<W>) -> Result<(), fmt::Error> {
        match self.statement {
            None => write!(f, "document: {}", self.fault),
            Some(statement) => write!(f, "statement {statement}: {}", self.fault),
        }
    }
}
