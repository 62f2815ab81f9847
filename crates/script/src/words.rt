// Words, parted by single blanks.
ghost use Rattle.std.specs.Prelude.{◌≡◌};
ghost use Rattle.script.specs.Words as Words;

// How many bytes stand before the first b; all of them where there is none.
pub fn reach(bytes: &[u8], b: u8) -> usize
    ensures { result ≡ Words.reach b bytes.now }
{
    bytes.iter().position(|x| *x == b).unwrap_or(bytes.len())
}

// The word at the front.
#[tactic(auto, using(crate::specs::Laws::Words::reach_le), unfolding(crate::specs::Words::word_of))]
pub fn word(bytes: &[u8]) -> &[u8]
    ensures { result.now ≡ Words.word_of bytes.now }
{
    let end = reach(bytes, b' ');
    &bytes[0..end]
}

// What stands behind the first blank.
#[tactic(auto, using(crate::specs::Laws::Words::reach_le), unfolding(crate::specs::Words::behind))]
pub fn behind(bytes: &[u8]) -> &[u8]
    ensures { result.now ≡ Words.behind bytes.now }
{
    let end = reach(bytes, b' ');
    if end < bytes.len() {
        return &bytes[end + 1..];
    }
    &bytes[end..]
}

// What stands behind the first k words.
#[tactic(auto, using(crate::specs::Laws::Words::skips))]
pub fn skipped(bytes: &[u8], k: usize) -> &[u8]
    ensures { result.now ≡ Words.skipped k bytes.now }
{
    let mut rest = bytes;
    for _i in 0..k {
        rest = behind(rest);
    }
    rest
}
