/// What stands before the operator of an entry: whether every value of the request has to satisfy it, or some value.
#[derive(Clone, Copy, Debug, PartialEq, Eq)]
pub enum Quantifier {
    /// `ForAllValues:`
    ForAllValues,
    /// `ForAnyValue:`
    ForAnyValue,
}

/// How a text is compared.
#[derive(Clone, Copy, Debug, PartialEq, Eq)]
pub enum TextTest {
    /// With regard to case.
    Equals,
    /// Without regard to case.
    EqualsIgnoreCase,
    /// As a pattern with `*` and `?`.
    Like,
}

/// How two numbers or two instants have to stand to each other: that of the request to that of the policy.
#[derive(Clone, Copy, Debug, PartialEq, Eq)]
pub enum Order {
    Equal,
    Less,
    AtMost,
    Greater,
    AtLeast,
}

/// What an operator compares, without its negation.
#[derive(Clone, Copy, Debug, PartialEq, Eq)]
pub enum Base {
    /// `StringEquals`, `StringEqualsIgnoreCase`, `StringLike`.
    Text(TextTest),
    /// `ArnEquals` and `ArnLike`, which are the same.
    Arn,
    /// `NumericEquals` and its kin.
    Number(Order),
    /// `DateEquals` and its kin.
    Date(Order),
    /// `Bool`
    Truth,
    /// `BinaryEquals`
    Binary,
    /// `IpAddress`
    Address,
    /// `Null`
    Null,
}

/// An operator of a condition, as `ForAllValues:StringNotLikeIfExists`.
///
/// AWS IAM User Guide, "IAM JSON policy elements: Condition operators".
#[derive(Clone, Copy, Debug, PartialEq, Eq)]
pub struct Operator {
    /// What stands before it.
    pub quantifier: Option<Quantifier>,
    pub base: Base,
    /// Whether it is the negation of its base, as `StringNotEquals`.
    pub is_negated: bool,
    /// Whether it ends in `IfExists`.
    pub if_exists: bool,
}
