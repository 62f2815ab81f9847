// One part over the bytes of a block.
ghost use Rattle.std.specs.Prelude.{◌≡◌, cond, true, ◌<◌, ◌≤◌, eqb, get_or, length, set, take, is_some};
ghost use Rattle.std.specs.Int.Bits.{bit_or};
ghost use Rattle.matching.specs.Reading.{table_step};
ghost use Rattle.passing.specs.Steps.{Step};
ghost use Rattle.blocks.specs.Sleep.{starts_in};
ghost use Rattle.blocks.specs.Walking.{Noted, NotedIf};

use crate::tables::BitTable;
use passing::places::all_below;
use passing::steps::Machines;

// How far a walk of N machines came, the place there if that is the end, and whether something was noted. `loud` is a flag and no Option of the
// notes: these are lent by the reading, which has them once for all blocks (fixed memory).
#[derive(Clone, Copy)]
pub struct Walked<const N: usize> {
    pub at: usize,
    pub place: [usize; N],
    pub loud: bool,
}

// Notes v at byte i. Whether something was noted before, or is now.
fn note(hits: &mut [u16; 256], i: usize, v: u16, loud: bool) -> bool
    requires { i < 256 }
    ensures { (result ≡ cond (eqb v 0) loud true) × (hits.new ≡ set hits.old i (bit_or v (get_or hits.old i 0))) }
{
    if v == 0 {
        return loud;
    }
    hits[i] = v | hits[i];
    true
}

// The first bytes, up to one. It carries no place to go back to, which is what makes it fast.
fn walk_part(
    machines: &Machines<1>,
    starts: &[usize],
    start: [usize; 8],
    bytes: &[u8],
    to: usize,
    hits: &mut [u16; 256],
) -> Walked<8>
    requires { (Step 1 machines.now.slots machines.now.numbers.now starts.now start) × ((to ≤ length bytes.now) × (to ≤ 256)) }
    ensures { Noted (table_step 1 machines.now.slots machines.now.numbers.now) start (take to bytes.now) result hits.old hits.new }
{
    let mut place = start;
    let mut loud = false;
    for i in 0..to {
        let next = machines.next_numbers(starts, place, bytes[i]);
        if !all_below(machines.slots, 8, next) {
            return Walked {
                at: i,
                place: start,
                loud,
            };
        }
        let v = machines.hits_of(8, 2, next);
        loud = note(hits, i, v, loud);
        place = next;
    }
    Walked {
        at: to,
        place,
        loud,
    }
}

impl<'a> BitTable<'a> {
    // The same where the table is awake; one that is asleep stays where it is, and notes nothing.
    pub fn walk(
        &self,
        start: [usize; 8],
        bytes: &[u8],
        to: usize,
        hits: &mut [u16; 256],
    ) -> Walked<8>
        requires { is_some self.now.starts ≡ true
            → (Step 1 self.now.machines.slots self.now.machines.numbers.now (starts_in self.now.starts) start) × ((to ≤ length bytes.now) × (to ≤ 256)) }
        ensures { NotedIf (is_some self.now.starts) (table_step 1 self.now.machines.slots self.now.machines.numbers.now) start bytes.now to result hits.old hits.new }
    {
        let Some(starts) = self.starts else {
            return Walked {
                at: to,
                place: start,
                loud: false,
            };
        };
        // A copy, since through the reference they would be loaded again after each note: 64 instructions a byte in place of 57.
        let machines = self.machines;
        walk_part(&machines, starts, start, bytes, to, hits)
    }
}
