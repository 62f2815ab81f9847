// What the bench program does between its files: feeding a piece to the ticket, taking all records whenever a feed stops, and the lines.
#![tactic(auto, using(output::specs::Laws::Waiting::put_append), unfolding(output::specs::Buffer::put_bytes))]

pub mod lines;

ghost use Rattle.desk.specs.Layout.{lent};
ghost use Rattle.serving.specs.Serving.{FeedsRest, FeedsPiece};

use desk::pieces::taken_by;
use desk::{Desk, Serial};
use output::Buffer;

// The desk after a step, and how many bytes it took.
#[derive(Drop)]
pub struct Fed {
    pub desk: Desk,
    pub taken: usize,
}

// One feed of what is left of a piece; then every record is taken and written.
fn feed_rest(
    desk: Desk,
    serial: Serial,
    first: &[u16],
    second: &[u16],
    rest: &[u8],
    out: &mut Buffer,
) -> Fed
    ensures { FeedsRest serial (lent first.now second.now) desk rest.now out.old result out.new }
{
    let feeding = desk.feed(serial, first, second, rest);
    let fed = feeding.desk;
    let answer = feeding.answer;
    let mut list = [0; 1024];
    let taking = fed.take_many(&mut list);
    let next = taking.desk;
    lines::put_records(out, &list, taking.answer);
    Fed {
        desk: next,
        taken: taken_by(answer),
    }
}

// Feeds until the piece is taken, or a feed takes nothing: LONG is refused before the first byte. A while, since a step is what a feed
// took: a for's step is 1. The gate has the same steps (gate/src/feeding.rt says why there are two).
pub fn feed_piece(
    desk: Desk,
    serial: Serial,
    first: &[u16],
    second: &[u16],
    piece: &[u8],
    out: &mut Buffer,
) -> Fed
    ensures { FeedsPiece serial (lent first.now second.now) desk piece.now out.old result out.new }
{
    let mut now = desk;
    let mut from: usize = 0;
    while from < piece.len() {
        let fed = feed_rest(now, serial, first, second, &piece[from..], out);
        let next = fed.desk;
        now = next;
        if fed.taken == 0 {
            return Fed {
                desk: now,
                taken: from,
            };
        }
        from += fed.taken;
    }
    Fed {
        desk: now,
        taken: from,
    }
}
