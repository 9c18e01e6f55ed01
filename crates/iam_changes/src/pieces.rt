// The texts of a world as they stand in rows of changes.
ghost use Rattle.std.specs.Prelude.{◌≡◌, IfOk, map};
ghost use Rattle.iam_row.specs.Code.ChangeParts.{change_action};
ghost use Rattle.iam_changes.specs.Code.Pieces.{ArePiecesOf};

use iam_layers::World;
use iam_row::{Format, Quoted, change_action, principals, resources};
use iam_text::{Items, OutOfMemory, Text};
use std::alloc::Global;

fn actions(alloc: Global, world: &World, format: Format) -> Result<Items<Text>, OutOfMemory>
    ensures { IfOk result (λ texts. texts ≡ map (change_action format) world.now.actions) }
{
    let mut texts = Vec::new(alloc);
    for a in 0..world.actions() {
        texts.push(change_action(alloc, format, world.action_text(a))?)?;
    }
    Ok(Items::from_vec(texts))
}

/// The texts of a world as they stand in rows of changes. `OutOfMemory` comes where they find no memory.
pub fn pieces_of(alloc: Global, world: &World, format: Format) -> Result<Quoted, OutOfMemory>
    ensures format { IfOk result (λ pieces. pieces.format ≡ format) }
    ensures pieces { IfOk result (λ pieces. ArePiecesOf world.now pieces) }
{
    Ok(Quoted {
        format,
        principals: principals(alloc, world, format)?,
        actions: actions(alloc, world, format)?,
        resources: resources(alloc, world, format)?,
    })
}
