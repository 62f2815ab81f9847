// What a feed answers once its ticket is found and current.
ghost use Rattle.std.specs.Prelude.{◌≡◌, ◌+◌, ◌<◌, ◌≤◌, length, Ok};
ghost use Rattle.matching.specs.Limits.{largest};
ghost use Rattle.desk.specs.Limits.{most_tickets};
ghost use Rattle.desk.specs.Feed.{advance, read_in};
ghost use Rattle.desk.specs.Layout.{lent};

use crate::{Advance, After, Desk, FeedRefusal, Ticket, scan, shared};
use matching::Stop;

pub fn damaged(desk: Desk) -> After<Result<Advance, FeedRefusal>>
    ensures { (result.desk ≡ desk) × (result.answer ≡ Ok (advance 0 0 Stop.Damaged)) }
{
    let answer = Ok(Advance {
        taken: 0,
        records: 0,
        stop: Stop::Damaged,
    });
    After { desk, answer }
}

// The reading for the ticket in room i, once nothing refuses it; its records go behind those held.
pub fn read_on(
    desk: Desk,
    i: usize,
    t: Ticket,
    first: &[u16],
    second: &[u16],
    piece: &[u8],
) -> After<Result<Advance, FeedRefusal>>
    requires { (i < most_tickets) × (t.taken + length piece.now ≤ largest) }
    ensures { result ≡ read_in desk i t (lent first.now second.now) piece.now }
{
    let place = t.place;
    let room = Desk::RECORDS.saturating_sub(desk.records.count);
    let scan = scan::read_for(first, second, place, t.taken, piece, room);
    let read = scan.read;
    let list = scan.list;
    let Ok(stop) = read.ending else {
        return damaged(desk);
    };
    let serial = t.serial;
    let edition = t.edition;
    let after = read.place;
    let mut fed = desk;
    shared::append(&mut fed.records, serial, edition, &list, read.records);
    fed.tickets[i] = Ticket {
        serial,
        edition,
        taken: t.taken + (read.taken as u32),
        place: after,
    };
    let answer = Ok(Advance {
        taken: read.taken,
        records: read.records,
        stop,
    });
    After { desk: fed, answer }
}
