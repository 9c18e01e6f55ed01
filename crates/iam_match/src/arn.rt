// ARN patterns, part by part.
ghost use Rattle.std.specs.Prelude.{◌≡◌, ◌↔◌, ◌⊎◌, ◌++◌, ◌∷◌, [], All, IsTrue, MatchOption, map};
ghost use Rattle.iam_text.specs.Arn.{colon};
ghost use Rattle.iam_glob.specs.declared.sign.Sign.TheVariants as sign;
ghost use Rattle.iam_text.specs.Arn.{parts_of};
ghost use Rattle.iam_glob.specs.Signs.{signs_in};
ghost use Rattle.iam_match.specs.Entry.{IsNoColon, PartsMatch};

use iam_text::{Arn, Sign, Signs};

/// What stands before and behind the first given colon.
fn cut_colon<'s>(signs: Signs<'s>) -> Option<(Signs<'s>, Signs<'s>)>
    ensures { MatchOption result (All IsNoColon (signs_in signs.entry))
        (λ r. All IsNoColon (signs_in r.0) × (signs_in signs.entry ≡ signs_in r.0 ++ (sign.Given colon ∷ signs_in r.1))) }
{
    for i in 0..signs.len() {
        if signs.at(i) == Sign::Given(':') {
            return Some((signs.until(i), signs.from(i + 1)));
        }
    }
    None
}

/// Whether the signs, cut at their first given colons, have a pattern for this part and each other one, and match it.
fn parts_match(signs: Signs<'_>, part: &str, others: &[&str]) -> bool
    ensures { IsTrue result ↔ PartsMatch (signs_in signs.entry) (part.now ∷ map (λ other. other.now) others.now) }
{
    match others.split_first() {
        None => signs.matches(part),
        Some((next, others)) => match cut_colon(signs) {
            Some((first, rest)) => first.matches(part) && parts_match(rest, next, others),
            None => false,
        },
    }
}

/// Whether the signs are the one wildcard `*`, or have six parts, each of which matches its part of the ARN.
///
/// AWS IAM User Guide, "Amazon Resource Name (ARN) condition operators".
pub fn arn_matches(signs: Signs<'_>, arn: &Arn<'_>) -> bool
    ensures { IsTrue result ↔ ((signs_in signs.entry ≡ sign.Any ∷ []) ⊎ PartsMatch (signs_in signs.entry) (parts_of arn.now)) }
{
    let others = [
        arn.partition,
        arn.service,
        arn.region,
        arn.account,
        arn.resource,
    ];
    (signs.len() == 1 && signs.at(0) == Sign::Any)
        || parts_match(signs, arn.prefix, others.as_slice())
}
