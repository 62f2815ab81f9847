// How many children a state has: the ones of its map.
ghost use Rattle.std.specs.Prelude.{◌≡◌, ◌≤◌};
ghost use Rattle.bitmap.specs.Steps.{ones_over};

use bitmap::slots::{Slot, ones_of};

// The children of a state whose map is laid.
pub fn children(slot: &Slot) -> usize
    ensures { (result ≡ ones_over slot.now.table.now slot.now.state 0 16) × (result ≤ 256) }
{
    let mut sum = 0;
    for j in 0..16 {
        sum += ones_of(slot.number(j));
    }
    sum
}
