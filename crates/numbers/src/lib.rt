// Answers as numbers: 0 and what the call gives, or the refusal's number and what is returned with it. A function for each call and no From:
// what an Option of a record or a Result without a value says depends on the call; and the gate's answers, Results too, are told in a crate
// above this one, where neither side of a From would be of the crate itself.
#![tactic(auto)]

ghost use Rattle.std.specs.Prelude.{◌≡◌, [], ◌∷◌};
ghost use Rattle.tagset.specs.Answer.{fault_number, fault_values};
ghost use Rattle.tables.specs.Building.{built_number, built_values, needed_number, needed_values};
ghost use Rattle.reading.specs.Outside.{read_number, read_values};
ghost use Rattle.desk.specs.Numbers.{replace_number, replace_values, open_number, open_values, feed_number, feed_values, close_number, close_values};
ghost use Rattle.desk.specs.Numbers.{take_number, take_values, state_values, stop_number};
ghost use Rattle.numbers.specs.Answers.{answer_of, said_of, ending_number, ending_values, moved_values};

use desk::{
    Advance, FeedRefusal, NoTicket, OpenRefusal, Record, ReplaceRefusal, Replaced, Serial,
    StateAnswer,
};
use matching::Stop;
use reading::{Ending, ReadRefusal};
use tables::{BuildFault, Needed};
use tagset::SetFault;

// No call gives more than four values yet; the others leave the layout as it is when one gives more.
#[repr(C)]
#[derive(Clone, Copy)]
pub struct Answer {
    pub refusal: u64,
    pub a: u64,
    pub b: u64,
    pub c: u64,
    pub d: u64,
    pub e: u64,
    pub f: u64,
    pub g: u64,
}

// An answer, and how many of the values are its own: those behind them are 0.
#[derive(Drop)]
pub struct Said {
    pub answer: Answer,
    pub count: u64,
}

impl Said {
    // Of so many values: those that there aren't are 0.
    pub fn new(refusal: u64, values: &[u64]) -> Self
        ensures { result ≡ said_of refusal values.now }
    {
        let at = |i: usize| values.get(i).copied().unwrap_or(0);
        Said {
            answer: Answer {
                refusal,
                a: at(0),
                b: at(1),
                c: at(2),
                d: at(3),
                e: at(4),
                f: at(5),
                g: at(6),
            },
            count: values.len() as u64,
        }
    }
}

fn of_stop(stop: Stop) -> u64
    ensures { result ≡ stop_number stop }
{
    match stop {
        Stop::All => 0,
        Stop::Full => 1,
        Stop::Damaged => 2,
    }
}

fn of_stopped(taken: usize, records: usize, stop: Stop) -> Said
    ensures { result ≡ said_of 0 (taken ∷ stop_number stop ∷ records ∷ []) }
{
    let why = of_stop(stop);
    Said::new(0, &[taken as u64, why, records as u64])
}

fn of_moved(taken: usize, records: usize, moves: usize, stop: Stop) -> Said
    ensures { result ≡ said_of 0 (taken ∷ stop_number stop ∷ records ∷ moves ∷ []) }
{
    let why = of_stop(stop);
    Said::new(0, &[taken as u64, why, records as u64, moves as u64])
}

fn of_advance(advance: Advance) -> Said
    ensures { result ≡ said_of 0 (advance.taken ∷ stop_number advance.stop ∷ advance.records ∷ []) }
{
    let stop = advance.stop;
    of_stopped(advance.taken, advance.records, stop)
}

fn of_fault(fault: SetFault) -> Said
    ensures { result ≡ said_of (fault_number fault) (fault_values fault) }
{
    match fault {
        SetFault::Cut(k) => Said::new(1, &[k as u64]),
        SetFault::Many(k) => Said::new(2, &[k as u64]),
        SetFault::Kind(k) => Said::new(3, &[k as u64]),
        SetFault::Length(k) => Said::new(4, &[k as u64]),
        SetFault::Empty => Said::new(5, &[0]),
        SetFault::Repeat(k) => Said::new(6, &[k as u64]),
    }
}

pub fn of_built(built: Result<usize, BuildFault>) -> Said
    ensures { result ≡ said_of (built_number built) (built_values built) }
{
    match built {
        Ok(count) => Said::new(0, &[count as u64]),
        Err(BuildFault::Set(fault)) => of_fault(fault),
        Err(BuildFault::Table(machine, needs)) => Said::new(7, &[machine as u64, needs as u64]),
    }
}

pub fn of_needed(needed: Result<Needed, SetFault>) -> Said
    ensures { result ≡ said_of (needed_number needed) (needed_values needed) }
{
    match needed {
        Ok(needed) => Said::new(0, &[needed.first as u64, needed.second as u64]),
        Err(fault) => of_fault(fault),
    }
}

pub fn of_replace(said: Result<Replaced, ReplaceRefusal>) -> Said
    ensures { result ≡ said_of (replace_number said) (replace_values said) }
{
    match said {
        Ok(given) => Said::new(0, &[u64::from(given.edition.0), given.tags as u64]),
        Err(ReplaceRefusal::Fault(fault)) => of_fault(fault),
        Err(ReplaceRefusal::Table(machine, needs)) => Said::new(7, &[machine as u64, needs as u64]),
        Err(ReplaceRefusal::EditionEnd) => Said::new(8, &[]),
    }
}

pub fn of_open(said: Result<Serial, OpenRefusal>) -> Said
    ensures { result ≡ said_of (open_number said) (open_values said) }
{
    match said {
        Ok(serial) => Said::new(0, &[u64::from(serial.0)]),
        Err(OpenRefusal::NoSet) => Said::new(9, &[]),
        Err(OpenRefusal::SerialEnd) => Said::new(10, &[]),
        Err(OpenRefusal::NoRoom) => Said::new(11, &[]),
    }
}

pub fn of_feed(said: Result<Advance, FeedRefusal>) -> Said
    ensures { result ≡ said_of (feed_number said) (feed_values said) }
{
    match said {
        Ok(advance) => of_advance(advance),
        Err(FeedRefusal::NoTicket) => Said::new(12, &[]),
        Err(FeedRefusal::Stale(edition)) => Said::new(13, &[u64::from(edition.0)]),
        Err(FeedRefusal::Long) => Said::new(14, &[]),
    }
}

pub fn of_close(said: Result<(), NoTicket>) -> Said
    ensures { result ≡ said_of (close_number said) (close_values said) }
{
    match said {
        Ok(()) => Said::new(0, &[]),
        Err(NoTicket) => Said::new(12, &[]),
    }
}

pub fn of_take(said: Option<Record>) -> Said
    ensures { result ≡ said_of (take_number said) (take_values said) }
{
    match said {
        Some(r) => Said::new(
            0,
            &[
                u64::from(r.serial.0),
                u64::from(r.edition.0),
                u64::from(r.end),
                u64::from(r.tag.0),
            ],
        ),
        None => Said::new(16, &[]),
    }
}

pub fn of_state(said: StateAnswer) -> Said
    ensures { result ≡ said_of 0 (state_values said) }
{
    match said {
        StateAnswer::Never => Said::new(0, &[0]),
        StateAnswer::Closed => Said::new(0, &[1]),
        StateAnswer::Stale(edition, taken) => Said::new(
            0,
            &[2, u64::from(edition.0), u64::from(taken)],
        ),
        StateAnswer::Open(edition, taken) => Said::new(
            0,
            &[3, u64::from(edition.0), u64::from(taken)],
        ),
    }
}

fn of_refusal(why: ReadRefusal) -> Said
    ensures { result ≡ said_of (read_number why) (read_values why) }
{
    match why {
        ReadRefusal::Long => Said::new(14, &[]),
        ReadRefusal::Place => Said::new(15, &[]),
    }
}

pub fn of_read(taken: usize, records: usize, ending: Ending) -> Said
    ensures { result ≡ said_of (ending_number ending) (ending_values taken records ending) }
{
    match ending {
        Ok(stop) => of_stopped(taken, records, stop),
        Err(why) => of_refusal(why),
    }
}

// The same over a bitmap table, with the failure moves of the bytes taken.
pub fn of_map_read(taken: usize, records: usize, moves: usize, ending: Ending) -> Said
    ensures { result ≡ said_of (ending_number ending) (moved_values taken records moves ending) }
{
    match ending {
        Ok(stop) => of_moved(taken, records, moves, stop),
        Err(why) => of_refusal(why),
    }
}
