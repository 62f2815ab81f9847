// Masks: bit u of a state's mask says whether tag u goes through the state, that is, begins with its word.
ghost use Rattle.std.specs.Prelude.{◌≡◌, ◌+◌, ◌%◌, ◌/◌, ◌<◌, ◌≤◌, ◌^◌, eqb};

// Whether tag u goes through the state whose mask it is.
pub fn goes_through(mask: u16, u: usize) -> bool
    requires { u < 16 }
    ensures { result ≡ eqb (mask / 2 ^ u % 2) 1 }
{
    (mask >> u) % 2 == 1
}

// The mask of the root: all n tags.
pub fn all_tags(n: usize) -> u16
    requires { n ≤ 16 }
    ensures { result + 1 ≡ 2 ^ n }
{
    ((1u32 << n) - 1) as u16
}
