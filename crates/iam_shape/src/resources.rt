// The walk over a resource.
ghost use Rattle.std.specs.Prelude.{◌≡◌, [], ◌∷◌};
ghost use Rattle.serde_json.specs.View.{view};
ghost use Rattle.iam_shape.specs.Lent.{resource_of};
ghost use Rattle.iam_shape.specs.Code.Walk.{Walks};
ghost use Rattle.iam_shape.specs.Shape.{has_only, resource_checks};
ghost use Rattle.iam_shape.specs.View.{IsResourceView};

use crate::context::is_context_or_none;
use crate::levels::walk_levels_at;
use crate::look::{member, text_at, truth_at};
use crate::path::{Name, Path};
use crate::view::ResourceView;
use iam_json::has_unknown;
use serde_json::Value;

/// Whether a resource has no member of another name.
fn has_only_members(resource: &Value) -> bool
    ensures { result ≡ has_only (Name.Arn ∷ (Name.Account ∷ (Name.Policy ∷ (Name.Sealed ∷ (Name.Context ∷ (Name.Control ∷ []))))))
        (view resource.now) }
{
    let names = [
        Name::Arn.as_str(),
        Name::Account.as_str(),
        Name::Policy.as_str(),
        Name::Sealed.as_str(),
        Name::Context.as_str(),
        Name::Control.as_str(),
    ];
    !has_unknown(resource, &names)
}

/// Walks a resource.
pub fn walk_resource(i: usize, resource: &Value) -> Result<ResourceView<'_>, Path>
    ensures { Walks (resource_checks i (view resource.entry.now))
        (λ found. IsResourceView (view resource.entry.now) (resource_of found)) result }
{
    let list = Name::Resources;
    if !resource.is_object() {
        return Err(Path::Item(list, i));
    }
    let Some(arn) = text_at(resource, Name::Arn) else {
        return Err(Path::Field(list, i, Name::Arn));
    };
    let Some(account) = text_at(resource, Name::Account) else {
        return Err(Path::Field(list, i, Name::Account));
    };
    let Some(sealed) = truth_at(resource, Name::Sealed) else {
        return Err(Path::Field(list, i, Name::Sealed));
    };
    let context = member(resource, Name::Context);
    if !is_context_or_none(context) {
        return Err(Path::Field(list, i, Name::Context));
    }
    let control = walk_levels_at(resource, list, i, Name::Control)?;
    if !has_only_members(resource) {
        return Err(Path::Item(list, i));
    }
    Ok(ResourceView {
        arn,
        account,
        policy: member(resource, Name::Policy),
        sealed,
        context,
        control,
    })
}
