/// The version of the policy language that a document is written in: whether its texts may hold variables.
///
/// AWS IAM User Guide, "IAM JSON policy elements: Version".
#[derive(Clone, Copy, Debug, PartialEq, Eq)]
pub enum Version {
    /// `2012-10-17`: `${` begins a variable.
    V2012,
    /// `2008-10-17`: each character stands for itself, or is a wildcard where wildcards may stand.
    V2008,
}
