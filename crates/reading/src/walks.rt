// The loop over a piece, for the whole-byte layout. Quiet bytes are passed over, but only after a byte without a match, so that
// input full of matches is no slower.
ghost use Rattle.std.specs.Prelude.{◌≡◌, [], ◌∷◌, ◌+◌, ◌*◌, ◌/◌, ◌<◌, ◌≤◌, ◌^◌, length};
ghost use Rattle.matching.specs.Reading.{read};
ghost use Rattle.reading.specs.Walks.{WalkedOne};

use crate::records::put_all;
use crate::went::Went;
use matching::Stop;
use passing::whole::WholeTable;

// Over a whole-byte table.
pub fn on_whole(
    table: &WholeTable,
    start: usize,
    count: u32,
    piece: &[u8],
    list: &mut [u32],
) -> Went<usize>
    requires { (start < table.now.states) × (count + length piece.now < 2 ^ 32) }
    ensures { WalkedOne result list.old list.new
        (read 8 table.now.states table.now.numbers.now (start ∷ []) count (length list.old / 2) piece.now) }
{
    let mut q = start;
    let mut w: usize = 0;
    let mut i: usize = 0;
    // A while, since a turn may pass over many bytes: a for's step is 1.
    while i < piece.len() {
        let Some(n) = table.next(q, piece[i]) else {
            return Went::stopped(i, q, w, Stop::Damaged);
        };
        let hits = table.vector(n);
        let Some(x) = put_all(list, w, count + (i as u32) + 1, hits) else {
            return Went::stopped(i, q, w, Stop::Full);
        };
        q = n;
        w = x;
        i += 1;
        if hits == 0 {
            let p = table.pass(q, piece, i);
            q = p.state;
            i = p.at;
        }
    }
    Went::stopped(i, q, w, Stop::All)
}
