// The state of a serial with a room, and of one without.
ghost use Rattle.std.specs.Prelude.{◌≡◌, eqb};
ghost use Rattle.desk.specs.State.{gone_by, held_by, is_given};

use crate::{Edition, Serial, StateAnswer, Ticket};

// Never given, or closed.
pub fn gone(serial: Serial, last: Serial) -> StateAnswer
    ensures { result ≡ gone_by (is_given serial last) }
{
    if serial.0 == 0 {
        return StateAnswer::Never;
    }
    if last.0 < serial.0 {
        return StateAnswer::Never;
    }
    StateAnswer::Closed
}

// Stale, or open under the edition in force.
pub fn held(t: Ticket, edition: Edition) -> StateAnswer
    ensures { result ≡ held_by t.edition t.taken (eqb t.edition.0 edition.0) }
{
    let its = t.edition;
    if its.0 != edition.0 {
        return StateAnswer::Stale(its, t.taken);
    }
    StateAnswer::Open(its, t.taken)
}
