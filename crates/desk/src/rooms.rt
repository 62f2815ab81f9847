// Looking for a room: a free one, or that of a serial.
ghost use Rattle.std.specs.Prelude.{◌≡◌, position};
ghost use Rattle.desk.specs.Rooms.{new_ticket};
ghost use Rattle.desk.specs.Wanted.{is_wanted};

use crate::{Desk, Edition, Serial, Ticket};

// A ticket at place 0 with no byte taken; with serial 0, a free room.
pub fn new_ticket(serial: Serial, edition: Edition) -> Ticket
    ensures { result ≡ new_ticket serial edition }
{
    Ticket {
        serial,
        edition,
        taken: 0,
        place: [0; 16],
    }
}

// An enum and no closure: each caller's proof names the room that it finds by one test of these two, whatever code makes it.
// No Option of a serial: a free room is wanted, and not nothing.
#[derive(Clone, Copy)]
pub enum Wanted {
    Free,
    For(Serial),
}

pub fn is_wanted(t: &Ticket, wanted: Wanted) -> bool
    ensures { result ≡ is_wanted wanted t.now }
{
    let its = t.serial;
    match wanted {
        Wanted::Free => its.0 == 0,
        Wanted::For(serial) => its.0 != 0 && its.0 == serial.0,
    }
}

// The first room that is wanted.
pub fn first_room(tickets: &[Ticket; 16], wanted: Wanted) -> Option<usize>
    ensures { result ≡ position (is_wanted wanted) tickets.now }
{
    let rooms = &tickets[..Desk::TICKETS];
    rooms.iter().position(|t| is_wanted(t, wanted))
}
