// What is made once a reading: the slots of each part, and its starts, if it is awake.
ghost use Rattle.std.specs.Prelude.{◌≡◌, [], ◌∷◌, ◌≤◌, length, MatchOption};
ghost use Rattle.matching.specs.Parts.{place_below, slots_over, split_layout};
ghost use Rattle.passing.specs.Steps.{Ready, Starts};
ghost use Rattle.blocks.specs.Parts.{SplitFits, Stands, runs_of};
ghost use Rattle.blocks.specs.Sleep.{Still};

use crate::places::part_of;
use crate::sleep::is_awake;
use crate::tables::{BitTable, SplitTables};
use matching::slots;
use passing::places::all_below;
use passing::steps::Machines;

// The slots of the two tables, by their lengths. The desk has this line too (desk/src/layout.rt): it stands on `reading`, and not on what
// that is made of.
pub fn slots_of(first: usize, second: usize) -> [usize; 2]
    ensures { result ≡ slots_over split_layout (first ∷ second ∷ []) }
{
    [slots(first, 1, 8), slots(second, 1, 8)]
}

// Whether each number of a place is a state of its table.
pub fn all_states(slots: [usize; 2], place: [usize; 16]) -> bool
    ensures { result ≡ place_below split_layout slots place }
{
    all_below(slots[0], 8, part_of(place, 0)) && all_below(slots[1], 8, part_of(place, 1))
}

// The starts of a part, laid into a run of their own, if it is awake at its place.
fn starts_of<'a>(
    machines: &Machines<1>,
    place: [usize; 8],
    run: &'a mut [usize],
) -> Option<&'a [usize]>
    requires { (Ready 1 8 machines.now.slots machines.now.numbers.now place) × ((machines.now.slots ≤ 513) × (length run.old ≡ 128)) }
    ensures { MatchOption result (Still machines.now.slots machines.now.numbers.now place) (λ starts. Starts 1 machines.now.slots starts.now) }
{
    if !is_awake(machines, place) {
        return None;
    }
    machines.put_starts(run);
    Some(run)
}

// Both tables, with what is known of them at a place; their starts are laid into a run.
pub fn tables_at<'a>(
    first: &'a [u16],
    second: &'a [u16],
    slots: [usize; 2],
    start: [usize; 16],
    run: &'a mut [usize; 256],
) -> SplitTables<'a>
    requires { Stands split_layout (first.now ∷ second.now ∷ []) slots start }
    ensures { (SplitFits result start) × (runs_of result ≡ first.now ∷ second.now ∷ []) }
{
    let exact = Machines {
        numbers: first,
        slots: slots[0],
    };
    let folded = Machines {
        numbers: second,
        slots: slots[1],
    };
    let (one, other) = run.split_at_mut(128);
    SplitTables {
        exact: BitTable {
            machines: exact,
            starts: starts_of(&exact, part_of(start, 0), one),
        },
        folded: BitTable {
            machines: folded,
            starts: starts_of(&folded, part_of(start, 1), other),
        },
    }
}
