// The outputs of all workers, put into the order of tiles.
ghost use Rattle.std.specs.Prelude.{◌≡◌, ◌<◌, ◌++◌, ◌∷◌, [], All, IfOk, List, None, Some, length, replicate, slice_get};
ghost use Rattle.iam_crew.specs.declared.worker.Made.{Made};
ghost use Rattle.iam_crew.specs.Code.Order.{IsPlaced};

use crate::worker::Made;
use iam_text::OutOfMemory;
use std::alloc::Global;

// A slot for each tile, without an output yet.
fn empty_slots<O: Drop>(alloc: Global, tiles: u64) -> Result<Vec<Option<O>>, OutOfMemory>
    ensures { IfOk result (λ v. v.items ≡ replicate tiles None) }
{
    let mut slots = Vec::new(alloc);
    for _tile in 0..tiles {
        slots.push(None)?;
    }
    Ok(slots)
}

// Puts an output into the slot of its tile.
fn put<O: Drop>(slots: &mut Vec<Option<O>>, one: Made<O>)
    requires { one.tile < length slots.old.items }
    ensures count { length slots.new.items ≡ length slots.old.items }
    ensures filled { slice_get slots.new.items one.tile ≡ Some (Some one.output) }
    ensures placed { (made : List (Made O)) → IsPlaced slots.old.items made → IsPlaced slots.new.items (made ++ one ∷ []) }
{
    let Made { tile, output } = one;
    slots[tile as usize] = Some(output);
}

/// The slots of all tiles, with each output in the slot of its tile. Where two were made of a tile, either serves.
pub fn place<O: Drop>(
    alloc: Global,
    made: Vec<Made<O>>,
    tiles: u64,
) -> Result<Vec<Option<O>>, OutOfMemory>
    requires { All (λ m. m.tile < tiles) made.items }
    ensures count { IfOk result (λ v. length v.items ≡ tiles) }
    ensures placed { IfOk result (λ v. IsPlaced v.items made.items) }
{
    let mut slots = empty_slots(alloc, tiles)?;
    for one in made {
        put(&mut slots, one);
    }
    Ok(slots)
}
