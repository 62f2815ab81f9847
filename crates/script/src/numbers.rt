// Digits, and NUMBER.
ghost use Rattle.std.specs.Prelude.{◌≡◌, ◌<◌, ◌≤◌, IfSome, unwrap_or};
ghost use Rattle.script.specs.Numbers.{digit_of, number_of, numbers_of};

use crate::words::{behind, word};

// What a hexadecimal digit counts.
#[tactic(auto, using(crate::specs::Laws::Numbers::digit_below, crate::specs::Laws::Numbers::digit_decimal, crate::specs::Laws::Numbers::digit_between, crate::specs::Laws::Numbers::digit_letter, crate::specs::Laws::Numbers::digit_above))]
pub fn digit(b: u8) -> Option<u8>
    ensures value { unwrap_or result 16 ≡ digit_of b }
    ensures below { IfSome result (λ d. d < 16) }
{
    match b {
        b'0'..=b'9' => Some(b - b'0'),
        b'a'..=b'f' => Some(b - b'a' + 10),
        _ => None,
    }
}

// A word as a number of at most `most`.
pub fn number_of(word: &[u8], most: u32) -> Option<u32>
    ensures value { result ≡ number_of most word.now }
    ensures bound { IfSome result (λ n. n ≤ most) }
{
    if word.is_empty() {
        return None;
    }
    let limit = u64::from(most);
    let mut n: u64 = 0;
    for b in word {
        if !b.is_ascii_digit() {
            return None;
        }
        let digit = u64::from(*b - b'0');
        n = n * 10 + digit;
        if limit < n {
            return None;
        }
    }
    Some(n as u32)
}

// The first word as a number of at most `first`, and the next one as a number of at most `last`.
#[tactic(auto, unfolding(crate::specs::Numbers::numbers_of))]
pub fn numbers_of(words: &[u8], first: u32, last: u32) -> Option<(u32, u32)>
    ensures value { result ≡ numbers_of first last words.now }
    ensures bounds { IfSome result (λ p. (p.0 ≤ first) × (p.1 ≤ last)) }
{
    let n = number_of(word(words), first)?;
    let m = number_of(word(behind(words)), last)?;
    Some((n, m))
}
