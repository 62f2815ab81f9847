// The bitmap layout (docs/RULES.md, 2 to 4): the whole-byte machine in slots of 19 numbers, and one byte's step over any such table.
#![tactic(auto)]

use std::cmp::Ord;

pub mod slots;
pub mod steps;

ghost use Rattle.std.specs.Prelude.{◌≡◌};
ghost use Rattle.bitmap.specs.Slots.{slots_of};

// Where a byte leads, and the failure moves on the way.
#[derive(Clone, Copy)]
pub struct Reached {
    pub state: usize,
    pub moves: usize,
}

// The slots of a table, at most: `most_slots` in matching's specs/Limits.antt.
const MOST_SLOTS: usize = 513;

// s: the slots that a table of so many numbers has.
pub fn map_slots(len: usize) -> usize
    ensures { result ≡ slots_of len }
{
    (len / 19).min(MOST_SLOTS)
}
