// The calls on the numbers of a table: `lend`, `poke` and `peek`. Which table it is stands behind them.
ghost use Rattle.std.specs.Prelude.{◌≡◌};
ghost use Rattle.script.specs.Words.{behind as behind·of};
ghost use Rattle.script.specs.Calls.{Plain, made, lend_of, peek_of, poke_of, size_of, table_of};

use crate::numbers::{number_of, numbers_of};
use crate::words::{behind, reach, word};
use crate::{Call, Table};

// The numbers that the program has in a table.
pub fn size_of(table: Table) -> u32
    ensures { result ≡ size_of table }
{
    match table {
        Table::First => 131841,
        Table::Second => 16384,
    }
}

// The table that is named behind the word at the front; the first where nothing stands there.
#[tactic(auto, unfolding(crate::specs::Calls::table_of))]
fn table_of(words: &[u8]) -> Option<Table>
    ensures { result ≡ table_of words.now }
{
    if reach(words, b' ') == words.len() {
        return Some(Table::First);
    }
    match number_of(behind(words), 1)? {
        0 => Some(Table::First),
        _ => Some(Table::Second),
    }
}

pub fn lend(words: &[u8]) -> Option<Call>
    ensures { Plain (lend_of (table_of words.now) words.now) (made result) }
{
    let table = table_of(words)?;
    let lent = number_of(word(words), size_of(table))?;
    Some(Call::Lend(lent as usize, table))
}

pub fn poke(words: &[u8]) -> Option<Call>
    ensures { Plain (poke_of (table_of (behind·of words.now)) words.now) (made result) }
{
    let table = table_of(behind(words))?;
    let (at, value) = numbers_of(words, size_of(table) - 1, 65535)?;
    Some(Call::Poke(at as usize, value as u16, table))
}

pub fn peek(words: &[u8]) -> Option<Call>
    ensures { Plain (peek_of (table_of (behind·of words.now)) words.now) (made result) }
{
    let table = table_of(behind(words))?;
    let (at, count) = numbers_of(words, u32::MAX, 256)?;
    let from = at as usize;
    let shown = count as usize;
    let size = size_of(table) as usize;
    if size < from + shown {
        return None;
    }
    Some(Call::Peek(from, shown, table))
}
