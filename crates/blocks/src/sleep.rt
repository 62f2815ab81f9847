// A part that no byte leads away from its place, and at whose place nothing is found, is asleep: it is left out. So the second
// table of a set without folded tags costs nothing.
ghost use Rattle.std.specs.Prelude.{◌≡◌, false, true, ◌+◌, ◌*◌, ◌<◌, get_or, length};
ghost use Rattle.passing.specs.Steps.{Ready};
ghost use Rattle.blocks.specs.Sleep.{Stay, Still};

use passing::steps::Machines;

// Whether machine m, in state q, stays there on either bit.
fn stays(machines: &Machines<1>, m: usize, q: usize) -> bool
    requires { (m * machines.now.slots + q) * 3 + 1 < length machines.now.numbers.now }
    ensures { result ≡ true → (get_or machines.now.numbers.now ((m * machines.now.slots + q) * 3) 0 ≡ q)
        × (get_or machines.now.numbers.now ((m * machines.now.slots + q) * 3 + 1) 0 ≡ q) }
{
    let at = (m * machines.slots + q) * 3;
    usize::from(machines.numbers[at]) == q && usize::from(machines.numbers[at + 1]) == q
}

// Whether all machines of a part stay.
fn all_stay(machines: &Machines<1>, place: [usize; 8]) -> bool
    requires { Ready 1 8 machines.now.slots machines.now.numbers.now place }
    ensures { result ≡ true → Stay machines.now.slots machines.now.numbers.now place }
{
    for m in 0..8 {
        if !stays(machines, m, place[m]) {
            return false;
        }
    }
    true
}

// Whether a part is awake at a place. One that is not is still there; one that is may be still too.
pub fn is_awake(machines: &Machines<1>, place: [usize; 8]) -> bool
    requires { Ready 1 8 machines.now.slots machines.now.numbers.now place }
    ensures { result ≡ false → Still machines.now.slots machines.now.numbers.now place }
{
    if !all_stay(machines, place) {
        return true;
    }
    machines.hits_of(8, 2, place) != 0
}
