// Words: the test whether a tag ends one, and the vector of a word.
ghost use Rattle.std.specs.Prelude.{◌≡◌, ◌&&◌, ◌<◌, ◌≤◌, length};
ghost use Rattle.matching.specs.Words.{ends};
ghost use Rattle.matching.specs.Machine.{vector};
ghost use Rattle.tagset.specs.Cutting.{words_of};
ghost use Rattle.machines.specs.Letters.{agree_at};

use tagset::Words;

// `both` and `agrees` stay as they are until the change that takes them away; nothing calls them.
fn both(a: bool, b: bool) -> bool
    ensures { result ≡ (a && b) }
{
    if a { b } else { false }
}

// Whether the letters at place i from the ends of a word and a tag are there and the same.
fn agrees(word: &[u8], tag: &[u8], i: usize) -> bool
    requires { i < length tag.now }
    ensures { result ≡ agree_at word.now tag.now i }
{
    if word.len() <= i {
        return false;
    }
    word[word.len() - 1 - i] == tag[tag.len() - 1 - i]
}

// Whether a tag ends a word. Most tags differ from it in one of the last letters, and so these are compared first: with the library's
// `ends_with`, which was tried, building takes a tenth more instructions.
pub fn tag_ends(word: &[u8], tag: &[u8]) -> bool
    ensures { result ≡ ends tag.now word.now }
{
    if word.len() < tag.len() {
        return false;
    }
    let last = &word[word.len() - tag.len()..];
    for i in (0..tag.len()).rev() {
        if last[i] != tag[i] {
            return false;
        }
    }
    true
}

// The vector of a word: bit i is set exactly if tag i ends it.
pub fn vector_of(word: &[u8], words: &Words) -> u16
    ensures { result ≡ vector (words_of words.now) word.now }
{
    let mut v: u16 = 0;
    for i in (0..words.count()).rev() {
        v = v * 2 + u16::from(tag_ends(word, words.tag(i)));
    }
    v
}
