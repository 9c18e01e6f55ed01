// Levels of policies, as they stand in a world.
ghost use Rattle.std.specs.Prelude.{◌≡◌, map};
ghost use Rattle.std.specs.List.{AllZip};
ghost use Rattle.serde_json.specs.Data.{Data};
ghost use Rattle.serde_json.specs.View.{view};
ghost use Rattle.iam_shape.specs.Lent.{policies_by_level, policies_in};
ghost use Rattle.iam_shape.specs.Code.Members.{data_of};
ghost use Rattle.iam_shape.specs.Code.Walk.{IsLevel, Walks, level_checks};
ghost use Rattle.iam_shape.specs.Shape.{each, levels_checks, member};
ghost use Rattle.iam_shape.specs.View.{HasLevels};

use crate::look::member;
use crate::path::{Name, Path};
use iam_json::values;
use serde_json::Value;

/// Levels of policies, from the root, as they stand in a document.
#[derive(Clone, Copy)]
pub struct Levels<'v> {
    /// The values that the levels are; `policies_in` gives the policies of each.
    pub values: &'v [Value],
}

/// The policies of a level: the values of its list.
pub fn policies_in(level: &Value) -> &[Value]
    ensures { map view result.now ≡ policies_in (view level.entry.now) }
{
    match values(level) {
        Some(policies) => policies,
        None => &[],
    }
}

/// Walks the levels that stand under a name of member i of a list.
fn walk_levels(list: Name, i: usize, name: Name, levels: &[Value]) -> Result<Levels<'_>, Path>
    ensures { Walks (each (level_checks list i name) 0 (map view levels.entry.now))
        (λ found. AllZip IsLevel (map view levels.entry.now) (policies_by_level found)) result }
{
    for (j, level) in levels.iter().enumerate() {
        if values(level).is_none() {
            return Err(Path::Entry(list, i, name, j));
        }
    }
    Ok(Levels { values: levels })
}

/// Walks what was found under a name of member i of a list, levels; where nothing was, there are none.
pub fn walk_levels_of(
    found: Option<&Value>,
    list: Name,
    i: usize,
    name: Name,
) -> Result<Levels<'_>, Path>
    ensures { (d : Data) → data_of found.entry ≡ member name d
        → Walks (levels_checks list i name (member name d))
        (λ levels. HasLevels name d (policies_by_level levels)) result }
{
    let Some(levels) = found else {
        return Ok(Levels { values: &[] });
    };
    match values(levels) {
        Some(levels) => walk_levels(list, i, name, levels),
        None => Err(Path::Field(list, i, name)),
    }
}

/// Walks the levels that stand under a name of member i of a list; where nothing does, there are none.
pub fn walk_levels_at(of: &Value, list: Name, i: usize, name: Name) -> Result<Levels<'_>, Path>
    ensures { Walks (levels_checks list i name (member name (view of.entry.now)))
        (λ found. HasLevels name (view of.entry.now) (policies_by_level found)) result }
{
    walk_levels_of(member(of, name), list, i, name)
}
