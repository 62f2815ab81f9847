// A state's slot of a bitmap table: its map says which bytes lead forward, and the count of ones below a byte's bit to which child.
ghost use Rattle.std.specs.Prelude.{◌≡◌, ◌+◌, ◌*◌, ◌/◌, ◌%◌, ◌<◌, ◌≤◌, ◌^◌, length};
ghost use Rattle.std.specs.Int.Count.{ones};
ghost use Rattle.bitmap.specs.Steps.{number_at, in_map, ones_below, fail_at, child_of};

// A state, and the table in which it has a slot.
#[derive(Clone, Copy)]
pub struct Slot<'a> {
    pub table: &'a [u16],
    pub state: usize,
    pub ghost there: { state * 19 + 18 < length table.now },
}

// Most words of a map are 0, and counting takes a dozen instructions.
pub fn ones_of(word: u16) -> usize
    ensures { (result ≡ ones word) × (result ≤ 16) }
{
    if word == 0 {
        return 0;
    }
    word.count_ones() as usize
}

// The lowest k bits of a word.
fn low(word: u16, k: usize) -> u16
    requires { k < 16 }
    ensures { result ≡ word % 2 ^ k }
{
    word & ((1 << k) - 1)
}

// Number j behind the begin of state q's slot, wherever the table ends.
pub fn number(table: &[u16], q: usize, j: usize) -> u16
    requires { q * 19 + j < length table.now }
    ensures { result ≡ number_at table.now q j }
{
    table[q * 19 + j]
}

impl<'a> Slot<'a> {
    // Number j of the slot.
    pub fn number(&self, j: usize) -> u16
        requires { self.now.state * 19 + j < length self.now.table.now }
        ensures { result ≡ number_at self.now.table.now self.now.state j }
    {
        number(self.table, self.state, j)
    }

    // A byte's bit of the map.
    pub fn own_bit(&self, c: u8) -> u16
        ensures { result ≡ number_at self.now.table.now self.now.state (c / 16) / 2 ^ (c % 16) % 2 }
    {
        let word = self.number(usize::from(c / 16));
        (word >> (c % 16)) % 2
    }

    // Whether a byte is in the map.
    pub fn has(&self, c: u8) -> bool
        ensures { result ≡ in_map self.now.table.now self.now.state c }
    {
        self.own_bit(c) == 1
    }

    // The ones of the map below a byte's bit: of whole words, and of its own word masked.
    pub fn ones_below(&self, c: u8) -> usize
        ensures { (result ≡ ones_below self.now.table.now self.now.state c) × (result ≤ 256) }
    {
        let x = usize::from(c);
        let whole = x / 16;
        let mut sum = 0;
        for j in 0..whole {
            sum += ones_of(self.number(j));
        }
        sum + ones_of(low(self.number(whole), x % 16))
    }

    // The child on a byte of the map.
    pub fn child(&self, c: u8) -> usize
        ensures { result ≡ child_of self.now.table.now self.now.state c }
    {
        usize::from(self.number(16)) + self.ones_below(c)
    }

    // The state that it fails to.
    pub fn fail(&self) -> usize
        ensures { result ≡ fail_at self.now.table.now self.now.state }
    {
        usize::from(self.number(17))
    }

    pub fn vector(&self) -> u16
        ensures { result ≡ number_at self.now.table.now self.now.state 18 }
    {
        self.number(18)
    }
}
