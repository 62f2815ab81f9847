// Passing over quiet bytes. Most bytes are read near state 0: from a state that fails to it, and has the byte not in its map, a byte leads where it
// leads from state 0. So a row of these is made once for a long piece, and asked by one test, which can be guessed.
ghost use Rattle.std.specs.Prelude.{◌≡◌, ◌+◌, ◌*◌, ◌<◌, ◌≤◌, ◌^◌, length};
ghost use Rattle.bitmap_reading.specs.Rows.{Row, Making, Leads, Quick, Shallow, Few, PassedTo, moves_from};

use crate::tables::MapTable;
use bitmap::Reached;
use bitmap::slots::Slot;

// The state that each byte leads to from state 0; none, where a number on its way is wrong.
pub type Leading = [Option<u16>; 256];

// Where a walk stands: the byte, the state then, and the failure moves up to it. Apart from passing's `Came`, which has no moves: a generic one
// would be a pair with a byte.
#[derive(Clone, Copy)]
pub struct Came {
    pub at: usize,
    pub state: usize,
    pub moves: usize,
}

// Where a byte leads from state 0.
fn leads(table: &MapTable, c: u8) -> Option<u16>
    requires { 0 < table.now.states }
    ensures { Leads table.now.states table.now.numbers.now c result }
{
    let to = table.next(0, c)?;
    Some(to.state as u16)
}

// A word of state 0's map, which is for 16 bytes: the row says where its bytes lead.
fn lead_word(table: &MapTable, row: &mut Leading, j: usize)
    requires j_in_bounds { (0 < table.now.states) × (j < 16) }
    requires making { Making table.now.states table.now.numbers.now row.old (16 * j) }
    ensures { Making table.now.states table.now.numbers.now row.new (16 * (j + 1)) }
{
    let root = Slot {
        table: table.numbers,
        state: 0,
    };
    for k in 0..16 {
        let c = 16 * j + k;
        if root.has(c as u8) {
            row[c] = leads(table, c as u8);
        }
    }
}

// The row of state 0, for a piece that is long enough for it to pay. Most bytes are not in its map, and stay there: the row begins so.
pub fn row_for(table: &MapTable) -> Leading
    requires { 0 < table.now.states }
    ensures { Row table.now.states table.now.numbers.now result }
{
    let root = Slot {
        table: table.numbers,
        state: 0,
    };
    let mut row: Leading = [Some(0); 256];
    for j in 0..16 {
        if root.number(j) != 0 {
            lead_word(table, &mut row, j);
        }
    }
    row
}

fn times(q: usize, marks: u16) -> usize
    requires { q ≤ 513 }
    ensures { result ≡ q * marks }
{
    q * usize::from(marks)
}

// Whether the row can't tell: the state is not 0, and has the byte or fails to another state than 0. It is a product, since the tests one by one
// would be branches that text can't be guessed by.
fn is_deep(table: &MapTable, q: usize, c: u8) -> bool
    requires { q < table.now.states }
    ensures { Shallow table.now.numbers.now q c result }
{
    let slot = Slot {
        table: table.numbers,
        state: q,
    };
    times(q, slot.own_bit(c) | slot.number(17)) != 0
}

// Leaving a state is a move, staying in state 0 is none.
fn moves_from(q: usize) -> usize
    ensures { result ≡ moves_from q }
{
    usize::from(q != 0)
}

// A byte's step, where it is found quickly: what it says is so, and it may say nothing.
fn quick(table: &MapTable, row: &Leading, q: usize, c: u8) -> Option<Reached>
    requires { (q < table.now.states) × Row table.now.states table.now.numbers.now row.now }
    ensures { Quick table.now.states table.now.numbers.now q c result }
{
    if is_deep(table, q, c) {
        return table.next(q, c);
    }
    let n = row[usize::from(c)]?;
    Some(Reached {
        state: usize::from(n),
        moves: moves_from(q),
    })
}

// Over quiet bytes, as long as there are.
pub fn pass(table: &MapTable, row: &Leading, from: Came, piece: &[u8]) -> Came
    requires s_in_bounds { (from.state < table.now.states) × Row table.now.states table.now.numbers.now row.now }
    requires from_in_bounds { (from.at ≤ length piece.now) × ((length piece.now < 2 ^ 32) × (Few from.moves from.at)) }
    ensures { PassedTo table.now.states table.now.numbers.now piece.now from.state from.at from.moves result }
{
    let mut came = from;
    for i in from.at..piece.len() {
        let Some(to) = quick(table, row, came.state, piece[i]) else {
            break;
        };
        if table.vector(to.state) != 0 {
            break;
        }
        came = Came {
            at: i + 1,
            state: to.state,
            moves: came.moves + to.moves,
        };
    }
    came
}
