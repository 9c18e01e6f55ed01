// The levels of policies that apply to a request.
ghost use Rattle.std.specs.Prelude.{◌≡◌, IfSome, map, option_map};
ghost use Rattle.iam_shape.specs.Few.{HasFewLevels};
ghost use Rattle.iam_world.specs.World.{account_with};
ghost use Rattle.iam_layers.specs.Applicable as applies;

use iam_policy::Policy;
use iam_world::{Account, Resource, WorldParts};

/// The levels, none where an account manages its organisation.
fn levels_unless(managing: bool, levels: &[Vec<Policy>]) -> &[Vec<Policy>]
    ensures value { map (λ level. level.items) result.now
        ≡ applies.levels_unless managing (map (λ level. level.items) levels.entry.now) }
    ensures few { HasFewLevels (map (λ level. level.items) levels.entry.now)
        → HasFewLevels (map (λ level. level.items) result.now) }
{
    if managing { &[] } else { levels }
}

/// Whether the account manages its organisation.
fn manages(account: Option<&Account>) -> bool
    ensures { result ≡ applies.manages (option_map (λ a. a.now) account.entry) }
{
    match account {
        Some(account) => account.manages(),
        None => false,
    }
}

/// The organisation policies that apply to requesters of the account.
pub fn org_of(account: Option<&Account>) -> &[Vec<Policy>]
    requires { IfSome account (λ a. HasFewLevels a.now.org) }
    ensures value { let asking = option_map (λ a. a.now) account.entry in map (λ level. level.items) result.now
        ≡ applies.levels_unless (applies.manages asking) (applies.org_of asking) }
    ensures few { HasFewLevels (map (λ level. level.items) result.now) }
{
    match account {
        Some(account) => levels_unless(account.manages(), account.org()),
        None => &[],
    }
}

/// The resource control policies that apply to whoever asks for the resource, which is of the account with this id. Where
/// it has none the account is not sought.
pub fn control_of<'a>(
    world: &WorldParts,
    account: &str,
    resource: &'a Resource,
) -> &'a [Vec<Policy>]
    requires { HasFewLevels resource.now.control }
    ensures value { map (λ level. level.items) result.now
        ≡ applies.levels_unless (applies.manages (account_with account.now world.now)) resource.entry.now.control }
    ensures few { HasFewLevels (map (λ level. level.items) result.now) }
{
    let levels = resource.control();
    if levels.is_empty() {
        return levels;
    }
    levels_unless(manages(world.account(account)), levels)
}
