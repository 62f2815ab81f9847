// A place of the split layout has the states of eight machines for each part, one part behind the other.
ghost use Rattle.std.specs.Prelude.{◌≡◌, ◌++◌, ◌*◌, ◌<◌, drop, take};

// The states of part g, by number: `split_layout` is a list of parts.
pub fn part_of(place: [usize; 16], g: usize) -> [usize; 8]
    requires { g < 2 }
    ensures { result ≡ take 8 (drop (g * 8) place) }
{
    let mut own: [usize; 8] = [0; 8];
    let from = g * 8;
    own.copy_from_slice(&place[from..from + 8]);
    own
}

// A place, by the states of each part.
pub fn joined(first: [usize; 8], second: [usize; 8]) -> [usize; 16]
    ensures { result ≡ first ++ second }
{
    let mut all: [usize; 16] = [0; 16];
    all[..8].copy_from_slice(&first);
    all[8..].copy_from_slice(&second);
    all
}
