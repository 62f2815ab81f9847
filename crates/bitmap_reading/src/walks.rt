// The loop over a piece. Quiet bytes are passed over, but only after a byte without a match, so that input full of matches is no slower.
ghost use Rattle.std.specs.Prelude.{IfSome, ◌≡◌, ◌+◌, ◌/◌, ◌<◌, ◌^◌, length};
ghost use Rattle.bitmap_reading.specs.Reading.{read_map};
ghost use Rattle.bitmap_reading.specs.Rows.{Row};
ghost use Rattle.bitmap_reading.specs.Walks.{WalkedMap};

use crate::Standing;
use crate::rows::{Came, Leading, pass, row_for};
use crate::tables::MapTable;
use matching::Stop;
use reading::records::put_all;
use reading::went::Went;

// A piece of so many bytes is long enough for a row of state 0.
const LONG: usize = 256;

fn standing(q: usize, moves: usize) -> Standing
    requires { q < 65536 }
    ensures { result ≡ record { state = q; moves = moves } }
{
    Standing {
        state: q as u16,
        moves,
    }
}

// A piece from a state, with the row of state 0 or without one. The row is lent, since in an Option it would be copied; and it is a loop for each
// kind of piece, so that a short one does not pay for the call.
#[inline(always)]
fn walk(
    table: &MapTable,
    row: Option<&Leading>,
    start: usize,
    count: u32,
    piece: &[u8],
    list: &mut [u32],
) -> Went<Standing>
    requires start_in_bounds { (start < table.now.states) × (count + length piece.now < 2 ^ 32) }
    requires row_leads { IfSome row (λ r. Row table.now.states table.now.numbers.now r.now) }
    ensures { WalkedMap table.now.states result list.old list.new
        (read_map table.now.states table.now.numbers.now start count (length list.old / 2) piece.now) }
{
    let mut q = start;
    let mut w: usize = 0;
    let mut i: usize = 0;
    let mut moves: usize = 0;
    // A while, since a turn may pass over many bytes: a for's step is 1.
    while i < piece.len() {
        let Some(to) = table.next(q, piece[i]) else {
            return Went::stopped(i, standing(q, moves), w, Stop::Damaged);
        };
        let hits = table.vector(to.state);
        let Some(x) = put_all(list, w, count + (i as u32) + 1, hits) else {
            return Went::stopped(i, standing(q, moves), w, Stop::Full);
        };
        q = to.state;
        w = x;
        i += 1;
        moves += to.moves;
        // what follows a byte without a match is passed over, if there is a row
        if hits == 0
            && let Some(row) = row
        {
            let here = Came {
                at: i,
                state: q,
                moves,
            };
            let p = pass(table, row, here, piece);
            q = p.state;
            i = p.at;
            moves = p.moves;
        }
    }
    Went::stopped(i, standing(q, moves), w, Stop::All)
}

pub fn on_bitmap(
    table: &MapTable,
    start: usize,
    count: u32,
    piece: &[u8],
    list: &mut [u32],
) -> Went<Standing>
    requires { (start < table.now.states) × (count + length piece.now < 2 ^ 32) }
    ensures { WalkedMap table.now.states result list.old list.new
        (read_map table.now.states table.now.numbers.now start count (length list.old / 2) piece.now) }
{
    if piece.len() < LONG {
        return walk(table, None, start, count, piece, list);
    }
    let row = row_for(table);
    walk(table, Some(&row), start, count, piece, list)
}
