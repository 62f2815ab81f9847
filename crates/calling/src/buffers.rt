// The set, the numbers of the tables, and lines that are no calls.
ghost use Rattle.std.specs.Prelude.{◌+◌, ◌≤◌, ◌<◌, length, take, drop};
ghost use Rattle.desk.specs.Layout.{lent};
ghost use Rattle.output.specs.Buffer.{Puts};
ghost use Rattle.script.specs.Calls.{size_of};
ghost use Rattle.answers.specs.Answers.{not_acall_line, numbers_line};
ghost use Rattle.calling.specs.Calls.{answered, held_by, Did, set_on, lend_on, poke_on, table_at};

use crate::State;
use output::Buffer;
use script::Table;

// So many numbers of a table from `at` on, as a line.
fn numbers_at(
    first: &[u16],
    second: &[u16],
    at: usize,
    count: usize,
    table: Table,
    out: &mut Buffer,
)
    requires { (at + count ≤ size_of table) × (131841 ≤ length first.now) × (16384 ≤ length second.now) }
    ensures { Puts out.old (numbers_line (take count (drop at (table_at (lent first.now second.now) table)))) out.new }
{
    let numbers = match table {
        Table::First => first,
        Table::Second => second,
    };
    answers::numbers_line(out, &numbers[at..at + count]);
}

impl State {
    pub(crate) fn not_a_call(&mut self, n: u64)
        ensures { Did (answered (held_by self.old) (not_acall_line n)) self.old.out (held_by self.new) self.new.out }
    {
        answers::not_a_call(&mut self.out, n);
    }

    pub(crate) fn set_to(&mut self, bytes: &[u8])
        requires { length bytes.now ≤ 4096 }
        ensures { Did (set_on (held_by self.old) bytes.now) self.old.out (held_by self.new) self.new.out }
    {
        script::put(&mut self.set, 0, bytes);
        self.held = bytes.len();
        answers::word_line(&mut self.out, b"set ", bytes.len() as u64);
    }

    pub(crate) fn lend(&mut self, lent: usize, table: Table)
        requires { lent ≤ size_of table }
        ensures { Did (lend_on (held_by self.old) lent table) self.old.out (held_by self.new) self.new.out }
    {
        match table {
            Table::First => self.first_lent = lent,
            Table::Second => self.second_lent = lent,
        }
        answers::word_line(&mut self.out, b"lent ", lent as u64);
    }

    pub(crate) fn poke(&mut self, at: usize, value: u16, table: Table)
        requires { at < size_of table }
        ensures { Did (poke_on (held_by self.old) at value table) self.old.out (held_by self.new) self.new.out }
    {
        match table {
            Table::First => self.first[at] = value,
            Table::Second => self.second[at] = value,
        }
        answers::word_line(&mut self.out, b"poked ", at as u64);
    }

    pub(crate) fn peek(&mut self, at: usize, count: usize, table: Table)
        requires { at + count ≤ size_of table }
        ensures { Did (answered (held_by self.old) (numbers_line (take count (drop at (table_at (held_by self.old).tables table)))))
            self.old.out (held_by self.new) self.new.out }
    {
        numbers_at(&self.first, &self.second, at, count, table, &mut self.out);
    }
}
