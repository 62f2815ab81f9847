// One byte for all machines of a slicing: BITS bits each, 8 / BITS machines.
ghost use Rattle.std.specs.Prelude.{◌≡◌, ◌+◌, ◌*◌, ◌/◌, ◌<◌, ◌≤◌, length, take, drop, get_or};
ghost use Rattle.matching.specs.Slicing.{anded};
ghost use Rattle.matching.specs.Reading.{nexts, vectors_at};
ghost use Rattle.passing.specs.Steps.{entry_of, Ready, Step, Part};

use matching::letters;

// The number of a state's row that start says: where its machine's slots begin, and the letter.
fn next_at(table: &[u16], row: usize, state: usize, start: usize) -> usize
    requires { state * row + start < length table.now }
    ensures { result ≡ get_or table.now (state * row + start) 0 }
{
    let at = state * row + start;
    usize::from(table[at])
}

// The vector of a state of machine m.
fn vector_at(table: &[u16], s: usize, size: usize, m: usize, state: usize) -> u16
    requires { (m * s + state) * (size + 1) + size < length table.now }
    ensures { result ≡ get_or table.now ((m * s + state) * (size + 1) + size) 0 }
{
    let at = (m * s + state) * (size + 1) + size;
    table[at]
}

// Where the entries for half h of byte c begin among the starts.
fn entry_of(bits: usize, c: u8, h: usize) -> usize
    requires { (0 < bits) × (h < 2) }
    ensures { result ≡ entry_of bits c h }
{
    (h * 16 + (usize::from(c) >> (h * 4)) % 16) * (4 / bits)
}

// The machines of a slicing in their table, with so many slots for each.
#[derive(Clone, Copy)]
pub struct Machines<'a, const BITS: usize> {
    pub numbers: &'a [u16],
    pub slots: usize,
}

impl<'a, const BITS: usize> Machines<'a, BITS> {
    // The next numbers of the machines that read half h of byte c, after those of the machines before.
    fn next_half(
        &self,
        starts: &[usize],
        place: [usize; 8],
        c: u8,
        h: usize,
        before: [usize; 8],
    ) -> [usize; 8]
        requires { (Step BITS self.now.slots self.now.numbers.now starts.now place)
            × ((h < 2) × (Part BITS self.now.slots self.now.numbers.now place c before (h * (4 / BITS)))) }
        ensures { Part BITS self.now.slots self.now.numbers.now place c result (h * (4 / BITS) + 4 / BITS) }
    {
        let half = 4 / BITS;
        let row = letters(BITS) + 1;
        let first = entry_of(BITS, c, h);
        let mut at = before;
        for j in 0..half {
            let m = h * half + j;
            at[m] = next_at(self.numbers, row, place[m], starts[first + j]);
        }
        at
    }

    // The next numbers for byte c.
    pub fn next_numbers(&self, starts: &[usize], place: [usize; 8], c: u8) -> [usize; 8]
        requires { Step BITS self.now.slots self.now.numbers.now starts.now place }
        ensures { take (4 / BITS + 4 / BITS) result
            ≡ nexts BITS self.now.slots self.now.numbers.now 0 (take (4 / BITS + 4 / BITS) place) c }
    {
        let low = self.next_half(starts, place, c, 0, place);
        self.next_half(starts, place, c, 1, low)
    }

    // v ANDed with the vectors of some of the machines.
    pub fn vectors(&self, from: usize, to: usize, place: [usize; 8], v: u16) -> u16
        requires { (from ≤ to) × ((BITS ≤ 8) × Ready BITS to self.now.slots self.now.numbers.now place) }
        ensures { result ≡ anded v (vectors_at BITS self.now.slots self.now.numbers.now from (drop from (take to place))) }
    {
        let size = letters(BITS);
        let mut r = v;
        for m in from..to {
            r &= vector_at(self.numbers, self.slots, size, m, place[m]);
        }
        r
    }

    // The AND of the vectors of the first k machines. The later ones are read only where the first few have a bit in common.
    pub fn hits_of(&self, k: usize, few: usize, place: [usize; 8]) -> u16
        requires { (few ≤ k) × ((BITS ≤ 8) × Ready BITS k self.now.slots self.now.numbers.now place) }
        ensures { result ≡ anded 65535 (vectors_at BITS self.now.slots self.now.numbers.now 0 (take k place)) }
    {
        let v = self.vectors(0, few, place, 65535);
        if v == 0 {
            return 0;
        }
        self.vectors(few, k, place, v)
    }
}
