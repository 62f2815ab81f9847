// The calls on the desk.
ghost use Rattle.std.specs.Prelude.{◌≡◌, ◌≤◌, length};
ghost use Rattle.answers.specs.Show.{show_lines};
ghost use Rattle.desk.specs.Layout.{by_set, lent, sizes, sizes_of};
ghost use Rattle.desk.specs.Replace.{replace_of, replaced_run};
ghost use Rattle.calling.specs.Calls.{answered, held_by, Did, front_of, behind_lent, replace_on, open_on, feed_on, close_on, state_on, take_on};

use crate::State;
use desk::{After, Desk, ReplaceRefusal, Replaced, Serial};

// Over the first numbers of two tables.
#[tactic(auto, using(crate::specs::Laws::off))]
fn replace_over(
    desk: Desk,
    set: &[u8],
    first: &mut [u16],
    second: &mut [u16],
    a: usize,
    b: usize,
) -> After<Result<Replaced, ReplaceRefusal>>
    requires { (a ≤ length first.old) × (b ≤ length second.old) }
    ensures value { result ≡ replace_of desk (by_set set.now) (sizes_of (front_of (sizes a b) (lent first.old second.old))) }
    ensures second_after { lent first.new second.new ≡ behind_lent (sizes a b) (lent first.old second.old)
        (replaced_run desk (by_set set.now) (front_of (sizes a b) (lent first.old second.old))) }
{
    desk.replace(set, &mut first[..a], &mut second[..b])
}

impl State {
    #[tactic(auto, using(crate::specs::Laws::off))]
    pub(crate) fn replace(&mut self)
        ensures { Did (replace_on (held_by self.old)) self.old.out (held_by self.new) self.new.out }
    {
        let r = replace_over(
            self.desk,
            &self.set[..self.held],
            &mut self.first,
            &mut self.second,
            self.first_lent,
            self.second_lent,
        );
        self.desk = r.desk;
        answers::replaced(&mut self.out, r.answer);
    }

    pub(crate) fn open(&mut self)
        ensures { Did (open_on (held_by self.old)) self.old.out (held_by self.new) self.new.out }
    {
        let r = self.desk.open();
        self.desk = r.desk;
        answers::opened(&mut self.out, r.answer);
    }

    pub(crate) fn feed(&mut self, serial: u32, piece: &[u8])
        ensures { Did (feed_on (held_by self.old) serial piece.now) self.old.out (held_by self.new) self.new.out }
    {
        let r = self.desk.feed(
            Serial(serial),
            &self.first[..self.first_lent],
            &self.second[..self.second_lent],
            piece,
        );
        self.desk = r.desk;
        answers::fed(&mut self.out, r.answer);
    }

    pub(crate) fn close(&mut self, serial: u32)
        ensures { Did (close_on (held_by self.old) serial) self.old.out (held_by self.new) self.new.out }
    {
        let r = self.desk.close(Serial(serial));
        self.desk = r.desk;
        answers::closed(&mut self.out, serial, r.answer);
    }

    pub(crate) fn tell(&mut self, serial: u32)
        ensures { Did (state_on (held_by self.old) serial) self.old.out (held_by self.new) self.new.out }
    {
        let answer = self.desk.state(Serial(serial));
        answers::told(&mut self.out, serial, answer);
    }

    pub(crate) fn take(&mut self)
        ensures { Did (take_on (held_by self.old)) self.old.out (held_by self.new) self.new.out }
    {
        let r = self.desk.take();
        self.desk = r.desk;
        answers::taken(&mut self.out, r.answer);
    }

    pub(crate) fn show(&mut self)
        ensures { Did (answered (held_by self.old) (show_lines self.old.desk)) self.old.out (held_by self.new) self.new.out }
    {
        answers::shown(&mut self.out, self.desk);
    }
}
