// The kinds of tag (docs/RULES.md, 1) in code: the table of them, and the folding of bytes.
#![tactic(auto)]

pub mod folding;

ghost use Rattle.std.specs.Prelude.{◌≡◌, ◌||◌, ◌<◌, ◌≤◌, MatchOption, ltb, get_or, take};
ghost use Rattle.matching.specs.Kinds.{kinds, no_kind};
ghost use Rattle.kinds.specs.Rows.{kinds_taken, row_of};

// The numbers of the two kinds, as an entry of a set has them. Numbers and no enum: `read_as`, `choose` and `deal_out`, which docs/PROMISES.md names, answer
// for every number.
pub const EXACT: usize = 1;

pub const FOLDED: usize = 2;

// The most bytes of a tag of each.
const LONGEST_EXACT: usize = 32;

const LONGEST_FOLDED: usize = 32;

// A kind's number, and the fewest and the most bytes of a tag of it.
#[derive(Clone, Copy)]
struct Row {
    number: usize,
    shortest: usize,
    longest: usize,
}

// The table of kinds: `kinds` in matching's specs/Kinds.antt.
const KINDS: [Row; 2] = [
    Row {
        number: EXACT,
        shortest: 1,
        longest: LONGEST_EXACT,
    },
    Row {
        number: FOLDED,
        shortest: 1,
        longest: LONGEST_FOLDED,
    },
];

// The kinds that a reader of sets takes.
#[derive(Drop)]
pub enum Takes {
    ExactAlone,
    BothKinds,
}

// They are the first so many rows of the table.
pub fn rows_taken(takes: Takes) -> usize
    ensures { (result ≤ 2) × (take result kinds ≡ kinds_taken takes) }
{
    match takes {
        Takes::ExactAlone => 1,
        Takes::BothKinds => 2,
    }
}

// What the table has in a row.
fn kind_in(row: usize) -> Row
    requires { row < 2 }
    ensures { let kind = get_or kinds row no_kind in (result.number ≡ kind.number) × (result.shortest ≡ kind.shortest) × (result.longest ≡ kind.longest) }
{
    KINDS[row]
}

// The row of a kind's number among the first so many, if it is in one of them.
pub fn row_of(number: usize, rows: usize) -> Option<usize>
    requires { rows ≤ 2 }
    ensures { let ks = take rows kinds in MatchOption result (row_of number ks ≡ rows) (λ row. (row < rows) × (row ≡ row_of number ks)) }
{
    for row in 0..rows {
        if kind_in(row).number == number {
            return Some(row);
        }
    }
    None
}

// Whether a tag of the kind in a row may not have so many bytes.
pub fn wrong_length(row: usize, length: usize) -> bool
    requires { row < 2 }
    ensures { result ≡ (ltb length (get_or kinds row no_kind).shortest || ltb (get_or kinds row no_kind).longest length) }
{
    let kind = kind_in(row);
    length < kind.shortest || kind.longest < length
}
