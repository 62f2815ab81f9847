// The bytes of a set: as they are written, or an entry for each quotation, of kind 2 where a tilde marks it, and else of kind 1.
ghost use Rattle.std.specs.Prelude.{◌≡◌, ◌+◌, ◌≤◌, eqb, length, take, drop, get_or, ◌||◌, ◌++◌, Some};
ghost use Rattle.script.specs.Bytes.{bytes_in, count_of};
ghost use Rattle.script.specs.Sets.{quoted_at, entry_of, payload_at, entries_of, within, set_of, is_marked, kind_at};
ghost use Rattle.script.specs.Sets.{unmarked as unmarked·of};

use crate::bytes::{bytes_of, put};
use crate::words::reach;

const MOST: usize = 4096;

// Whether a tilde stands at the front.
fn is_marked(words: &[u8]) -> bool
    ensures { result ≡ is_marked words.now }
{
    matches!(words, [b'~', ..])
}

// The words behind a tilde at the front.
#[tactic(auto, unfolding(crate::specs::Sets::unmarked))]
fn unmarked(words: &[u8]) -> &[u8]
    ensures { result.now ≡ unmarked·of words.now }
{
    match words {
        [b'~', bare @ ..] => bare,
        _ => words,
    }
}

// The kind that the mark at the front, or that there is none, asks for.
#[tactic(auto, unfolding(crate::specs::Sets::kind_at))]
fn kind_at(words: &[u8]) -> u8
    ensures { result ≡ kind_at words.now }
{
    if is_marked(words) {
        return 2;
    }
    1
}

// A quotation at the front of some words, with so many bytes inside: the last word, or followed by a blank.
#[derive(Drop)]
pub enum Quoted {
    Last(usize),
    Followed(usize),
}

#[tactic(auto, using(crate::specs::Laws::Words::reach_le), unfolding(crate::specs::Sets::quoted_at))]
pub fn quoted_at(words: &[u8]) -> Option<Quoted>
    ensures { result ≡ quoted_at words.now }
{
    let [b'"', rest @ ..] = words else {
        return None;
    };
    let inside = reach(rest, b'"');
    match &rest[inside..] {
        [_] => Some(Quoted::Last(inside)),
        [_, b' ', ..] => Some(Quoted::Followed(inside)),
        _ => None,
    }
}

// The buffer has room for any line, and a count of the set's bytes beside it: a struct of the two would lend the buffer anew for each entry, and
// say no more.

// An entry of a kind behind the n bytes that the buffer begins with, unless the set grows too long.
#[tactic(auto, using(crate::specs::Laws::Sets::entry_fits, crate::specs::Laws::Sets::entry_long))]
fn put_entry(buffer: &mut [u8], n: usize, kind: u8, payload: &[u8]) -> Option<usize>
    requires { (n ≤ 4096) × (4096 ≤ length buffer.old) }
    ensures result_after { bytes_in buffer.new result ≡ within 4096 (Some (take n buffer.old ++ entry_of kind payload.now)) }
    ensures result_bound { count_of result ≤ 4096 }
{
    if MOST < payload.len() {
        return None;
    }
    if MOST < n + 4 + payload.len() {
        return None;
    }
    let k = payload.len();
    let head = [(k % 256) as u8, (k / 256) as u8, kind, 0];
    put(buffer, n, &head);
    put(buffer, n + 4, payload);
    Some(n + 4 + k)
}

// The entry of a quotation of k bytes at the front of some words.
fn put_quoted(buffer: &mut [u8], n: usize, kind: u8, words: &[u8], k: usize) -> Option<usize>
    requires { (n ≤ 4096) × (4096 ≤ length buffer.old) × (k + 2 ≤ length words.now) }
    ensures result_after { bytes_in buffer.new result ≡ within 4096 (Some (take n buffer.old ++ entry_of kind (payload_at k words.now))) }
    ensures result_bound { count_of result ≤ 4096 }
{
    put_entry(buffer, n, kind, &words[1..k + 1])
}

// The words behind such a quotation and its blank.
fn behind_quoted(words: &[u8], k: usize) -> &[u8]
    requires { k + 3 ≤ length words.now }
    ensures { result.now ≡ drop (k + 3) words.now }
{
    &words[k + 3..]
}

fn entries(words: &[u8], buffer: &mut [u8]) -> Option<usize>
    requires { 4096 ≤ length buffer.old }
    ensures result_after { bytes_in buffer.new result ≡ within 4096 (entries_of (length words.now) words.now) }
    ensures result_bound { count_of result ≤ 4096 }
{
    let mut rest = words;
    let mut n: usize = 0;
    for _done in 0..words.len() {
        let kind = kind_at(rest);
        let bare = unmarked(rest);
        match quoted_at(bare)? {
            Quoted::Last(k) => return put_quoted(buffer, n, kind, bare, k),
            Quoted::Followed(k) => {
                n = put_quoted(buffer, n, kind, bare, k)?;
                rest = behind_quoted(bare, k);
            }
        }
    }
    None
}

// Whether the first word is a quotation, marked or not, if it is one.
fn has_quotation(words: &[u8]) -> bool
    ensures { result ≡ eqb (get_or words.now 0 0) 34 || is_marked words.now }
{
    matches!(words, [b'"' | b'~', ..])
}

#[tactic(auto, using(crate::specs::Laws::Sets::no_set), unfolding(crate::specs::Sets::set_of))]
pub fn set_bytes(words: &[u8], buffer: &mut [u8]) -> Option<usize>
    requires { (length words.now ≤ length buffer.old) × (4096 ≤ length buffer.old) }
    ensures result_after { bytes_in buffer.new result ≡ set_of words.now }
    ensures result_bound { count_of result ≤ 4096 }
{
    if words.is_empty() {
        return None;
    }
    if has_quotation(words) {
        return entries(words, buffer);
    }
    let n = bytes_of(words, buffer)?;
    if MOST < n {
        return None;
    }
    Some(n)
}
