// What reading a piece comes to, as the loops over a piece answer it.
ghost use Rattle.std.specs.Prelude.{◌≡◌};

use matching::Stop;

// The bytes taken, the place then, the records written, and why it stopped.
#[derive(Clone, Copy)]
pub struct Went<P> {
    pub taken: usize,
    pub place: P,
    pub records: usize,
    pub stop: Stop,
}

impl<P> Went<P> {
    pub fn stopped(taken: usize, place: P, records: usize, stop: Stop) -> Went<P>
        ensures { result ≡ record { taken = taken; place = place; records = records; stop = stop } }
    {
        Went {
            taken,
            place,
            records,
            stop,
        }
    }
}
