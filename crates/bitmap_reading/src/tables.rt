// A bitmap table as it is read.
ghost use Rattle.std.specs.Prelude.{◌≡◌, ◌*◌, ◌<◌, ◌≤◌, length};
ghost use Rattle.bitmap.specs.Steps.{step, vector_at};

use bitmap::Reached;
use bitmap::slots::Slot;
use bitmap::steps::next_state;

// Each state has a slot of 19 numbers.
#[derive(Clone, Copy)]
pub struct MapTable<'a> {
    pub numbers: &'a [u16],
    pub states: usize,
    pub ghost fits: { states * 19 ≤ length numbers.now },
    pub ghost few: { states ≤ 513 },
}

impl<'a> MapTable<'a> {
    pub fn next(&self, q: usize, c: u8) -> Option<Reached>
        requires { q < self.now.states }
        ensures { result ≡ step self.now.states self.now.numbers.now q c }
    {
        next_state(self.numbers, self.states, q, c)
    }

    pub fn vector(&self, q: usize) -> u16
        requires { q < self.now.states }
        ensures { result ≡ vector_at self.now.numbers.now q }
    {
        let slot = Slot {
            table: self.numbers,
            state: q,
        };
        slot.vector()
    }
}
