// Reading a tag set (docs/RULES.md, 1).
#![tactic(auto)]

ghost use Rattle.std.specs.Prelude.{◌≡◌, ◌&&◌, [], ◌+◌, ◌*◌, ◌-◌, ◌<◌, ◌≤◌, min, eqb, length, get_or, take, drop};
ghost use Rattle.matching.specs.Kinds.{folded_kind, kinds};
ghost use Rattle.matching.specs.Tags.{Tags, no_tag, word_as};
ghost use Rattle.matching.specs.Words.{same};
ghost use Rattle.kinds.specs.Rows.{kinds_taken};
ghost use Rattle.tagset.specs.Grammar.{among_tags, entry_of, entries_from, bad_set, distinct, set_of};
ghost use Rattle.tagset.specs.Answer.{placed, set_read, verdict_of, cut_at, tags_in};
ghost use Rattle.tagset.specs.Lying.{Cut, Lying};

use distinct::ReadTags;
use kinds::folding::fold_all;
use kinds::{FOLDED, Takes, row_of, rows_taken, wrong_length};
pub use letters::Words;

mod distinct;
mod letters;

// The tags of a set, at most: `most_tags` in matching's specs/Limits.antt.
const MOST_TAGS: usize = 16;

// Why a set is refused, with the entry at fault.
#[derive(Clone, Copy, Debug, PartialEq, Eq)]
pub enum SetFault {
    Cut(usize),
    Many(usize),
    Kind(usize),
    Length(usize),
    Empty,
    Repeat(usize),
}

// Where each tag lies in the bytes of its set: tag i from from[i] up to to[i]; and its kind. Past the count all are 0. The three arrays stay apart since
// `tag_bytes` and `choosing::deal_out` (docs/PROMISES.md) are lent one of them each, as a slice of numbers.
#[derive(Clone, Copy)]
pub struct Places {
    pub count: usize,
    pub from: [usize; 16],
    pub to: [usize; 16],
    pub kinds: [usize; 16],
}

// Where the tag of an entry lies in the bytes of its set, from .. up to .., and its kind.
#[derive(Clone, Copy)]
struct Place {
    from: usize,
    to: usize,
    kind: usize,
}

// The number of two bytes, the low byte first.
fn number_at(set: &[u8], at: usize) -> usize
    requires { at + 1 < length set.now }
    ensures { result ≡ get_or set.now at 0 + 256 * get_or set.now (at + 1) 0 }
{
    usize::from(u16::from_le_bytes([set[at], set[at + 1]]))
}

// Entry k, which begins at `at`, where tags of the kinds in the first rows of their table are taken: its checks in the rules' order.
fn read_entry(set: &[u8], rows: usize, k: usize, at: usize) -> Result<Place, SetFault>
    requires { (rows ≤ 2) × (at ≤ length set.now) }
    ensures { result ≡ placed at (entry_of (take rows kinds) k (drop at set.now)) }
{
    let left = set.len() - at;
    if left < 4 {
        return Err(SetFault::Cut(k));
    }
    if k == MOST_TAGS {
        return Err(SetFault::Many(k));
    }
    let kind = number_at(set, at + 2);
    let Some(row) = row_of(kind, rows) else {
        return Err(SetFault::Kind(k));
    };
    let length = number_at(set, at);
    if wrong_length(row, length) {
        return Err(SetFault::Length(k));
    }
    if left < 4 + length {
        return Err(SetFault::Cut(k));
    }
    Ok(Place {
        from: at + 4,
        to: at + 4 + length,
        kind,
    })
}

// The entries from the left: the first faulty one decides.
fn read_entries(set: &[u8], rows: usize) -> Result<Places, SetFault>
    requires { rows ≤ 2 }
    ensures { result ≡ set_read (entries_from (take rows kinds) 17 0 set.now) }
{
    let mut from = [0usize; 16];
    let mut to = [0usize; 16];
    let mut kinds = [0usize; 16];
    let mut k = 0;
    let mut at = 0;
    // A while, since each entry says where the next begins.
    while at < set.len() {
        let place = read_entry(set, rows, k, at)?;
        from[k] = place.from;
        to[k] = place.to;
        kinds[k] = place.kind;
        at = place.to;
        k += 1;
    }
    Ok(Places {
        count: k,
        from,
        to,
        kinds,
    })
}

// The bytes from a up to e, as far as there are such.
fn part(set: &[u8], a: usize, e: usize) -> &[u8]
    ensures { result.now ≡ take (e - a) (drop a set.now) }
{
    let end = e.min(set.len());
    let begin = a.min(end);
    &set[begin..end]
}

// The bytes of tag t; none where there is no such tag.
pub fn tag_bytes<'a>(set: &'a [u8], from: &[usize], to: &[usize], t: usize) -> &'a [u8]
    ensures { result.now ≡ get_or (cut_at set.now from.now to.now) t [] }
{
    if from.len() <= t {
        return part(set, 0, 0);
    }
    if to.len() <= t {
        return part(set, 0, 0);
    }
    let a = from[t];
    let e = to[t];
    part(set, a, e)
}

// The bytes of a set as a kind reads them: as they are, or folded.
pub fn read_as<'a>(kind: usize, set: &'a [u8], folded: &'a [u8]) -> &'a [u8]
    requires { folded.now ≡ word_as folded_kind set.now }
    ensures { result.now ≡ word_as kind set.now }
{
    if kind == FOLDED {
        return folded;
    }
    set
}

// Whether the tags are distinct, with the set folded for those that are compared so: the fault is the lowest-numbered that equals an earlier one.
fn distinct_tags(set: &[u8], from: &[usize], to: &[usize], kinds: &[usize]) -> Result<(), SetFault>
    requires { Cut set.now from.now to.now kinds.now }
    ensures { let tags = tags_in set.now from.now to.now kinds.now in result ≡ verdict_of (distinct [] 0 tags) }
{
    let mut folded = [0u8; 576];
    fold_all(set, &mut folded);
    let n = set.len();
    let tags = ReadTags {
        set,
        folded: &folded[..n],
        from,
        to,
        kinds,
    };
    tags.distinct()
}

// A set of bytes as docs/RULES.md, 1, has it, from the left, where tags of some kinds are taken.
pub fn read_set(set: &[u8], takes: Takes) -> Result<Places, SetFault>
    ensures { result ≡ set_read (set_of (kinds_taken takes) set.now) }
{
    if set.is_empty() {
        return Err(SetFault::Empty);
    }
    let read = read_entries(set, rows_taken(takes))?;
    let count = read.count;
    let from = read.from;
    let to = read.to;
    let kinds = read.kinds;
    distinct_tags(set, &from[..count], &to[..count], &kinds[..count])?;
    Ok(read)
}
