// The fronts that tags share.
ghost use Rattle.std.specs.Prelude.{◌≡◌, [], ◌<◌, length, get_or, take};
ghost use Rattle.tagset.specs.Cutting.{words_of};
ghost use Rattle.machines.specs.Fronts.{shared, known};

use std::cmp::Ord;
use tagset::Words;

// The letters that two words share at their fronts.
fn shared_front(v: &[u8], w: &[u8]) -> usize
    ensures { result ≡ shared v.now w.now }
{
    let n = v.len().min(w.len());
    for i in 0..n {
        if v[i] != w[i] {
            return i;
        }
    }
    n
}

// The letters that tag t shares with a tag before it: its prefixes of at most so many are theirs too.
pub fn known_front(words: &Words, t: usize) -> usize
    requires { t < length (words_of words.now) }
    ensures { let ts = words_of words.now in result ≡ known (take t ts) (get_or ts t []) }
{
    let tag = words.tag(t);
    let mut most = 0;
    for i in 0..t {
        most = most.max(shared_front(tag, words.tag(i)));
    }
    most
}
