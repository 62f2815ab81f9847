// What matching means: its definitions and laws are in specs/. Here is the little that all code shares: why a reading stops,
// and how a table's length tells its slots.
#![tactic(auto)]

ghost use Rattle.std.specs.Prelude.{◌≡◌, ◌^◌, ◌<◌, ◌≤◌};
ghost use Rattle.matching.specs.Table.{slots_in};

// All bytes were taken; or the next byte's matches don't all fit; or a next number is no state's.
#[derive(Clone, Copy, PartialEq, Eq, Debug)]
pub enum Stop {
    All,
    Full,
    Damaged,
}

// The slots of a machine, at most: `most_slots` in specs/Limits.antt.
pub const MOST_SLOTS: usize = 513;

// How many letters a machine of so many bits has. Here and below bits are an argument and no const parameter: `tables` builds whichever
// parts a layout has.
pub fn letters(bits: usize) -> usize
    requires { bits ≤ 8 }
    ensures { result ≡ 2 ^ bits }
{
    1 << bits
}

// s: the slots that a table of so many numbers has for each of k machines.
pub fn slots(len: usize, bits: usize, k: usize) -> usize
    requires { (bits ≤ 8) × ((0 < k) × (k ≤ 8)) }
    ensures { result ≡ slots_in bits k len }
{
    let most = len / (k * (letters(bits) + 1));
    most.min(MOST_SLOTS)
}
