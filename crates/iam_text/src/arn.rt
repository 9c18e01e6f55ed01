// An ARN, cut at its first five colons.
ghost use Rattle.std.specs.Prelude.{◌≡◌, ◌<◌, ◌↔◌, MatchOption, nat_le, ℕ, List, IfSome, IfNone, IsNone};
ghost use Rattle.iam_text.specs.Arn.{colons, IsArn, parts_of};
ghost use Rattle.iam_text.specs.Code.Cut.{IsCutFirst};

/// An ARN, cut into its six parts: `arn:partition:service:region:account:resource`.
///
/// AWS IAM User Guide, "IAM identifiers".
#[derive(Clone, Copy, Debug, PartialEq, Eq)]
pub struct Arn<'a> {
    /// The first part, `arn` in a true ARN.
    pub prefix: &'a str,
    pub partition: &'a str,
    pub service: &'a str,
    pub region: &'a str,
    pub account: &'a str,
    /// All that stands behind the fifth colon, further colons included.
    pub resource: &'a str,
}

impl<'a> Arn<'a> {
    /// The six parts of a text, cut at its first five colons, and no others are; `None` where it has fewer colons.
    ///
    /// It does not test that the first part is `arn`.
    pub fn cut(text: &'a str) -> Option<Arn<'a>>
        ensures parts { IfSome result (λ a. IsArn (parts_of a) text.entry.now) }
        ensures only { IfSome result (λ a. (parts : List (List ℕ)) → IsArn parts text.entry.now → parts_of a ≡ parts) }
        ensures no_parts { IfNone result ((parts : List (List ℕ)) → ¬ IsArn parts text.entry.now) }
        ensures none { IsNone result ↔ (colons text.entry.now < 5) }
    {
        let (prefix, rest) = cut_first(text)?;
        let (partition, rest) = cut_first(rest)?;
        let (service, rest) = cut_first(rest)?;
        let (region, rest) = cut_first(rest)?;
        let (account, resource) = cut_first(rest)?;
        Some(Arn {
            prefix,
            partition,
            service,
            region,
            account,
            resource,
        })
    }
}

fn cut_first(text: &str) -> Option<(&str, &str)>
    ensures { MatchOption result (colons text.entry.now ≡ 0) (λ p. IsCutFirst text.entry.now p.0.now p.1.now) }
{
    text.split_once(':')
}

/// Whether the text has at least five colons, so that it can be cut into six parts.
pub fn has_six_parts(text: &str) -> bool
    ensures { result ≡ nat_le 5 (colons text.now) }
{
    count_colons(text.as_bytes()) >= 5
}

fn count_colons(text: &[u8]) -> usize
    ensures { result ≡ colons text.now }
{
    let mut count = 0;
    for &character in text {
        if character == b':' {
            count += 1;
        }
    }
    count
}
