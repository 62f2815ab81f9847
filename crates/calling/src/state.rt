// What a replay script runs on.
ghost use Rattle.std.specs.Prelude.{◌≤◌};

use desk::Desk;
use output::Buffer;

// The set is the first `held` bytes of its buffer, the first `first_lent` numbers of the first table and the first `second_lent` of the
// second are lent, the list takes what a read outside the desk finds, and each call puts its answer into `out`. No heap: each buffer is an
// array, and how much of it counts stands beside it.
#[derive(Drop)]
pub struct State {
    pub desk: Desk,
    pub set: [u8; 4096],
    pub held: usize,
    pub first: [u16; 131841],
    pub first_lent: usize,
    pub second: [u16; 16384],
    pub second_lent: usize,
    pub list: [u32; 2048],
    pub out: Buffer,
    // The set and the lent parts are within their buffers.
    pub ghost set_within: { held ≤ 4096 },
    pub ghost first_within: { first_lent ≤ 131841 },
    pub ghost second_within: { second_lent ≤ 16384 },
}
