// The number of a station that is served.
ghost use Rattle.std.specs.Prelude.{◌≡◌, ◌<◌};

// A station among the first 16, by its number.
#[derive(Clone, Copy)]
pub struct Seat {
    pub number: u8,
    ghost among: { number < 16 },
}

impl Seat {
    // The seat of a station that was found.
    pub fn new(station: usize) -> Seat
        requires { station < 16 }
        ensures { result.number ≡ station }
    {
        // The cast is exact below 16, where `try_from` would answer an error that never comes.
        Seat {
            number: station as u8,
        }
    }

    // Where the seat's station stands among the stations.
    pub fn index(self) -> usize
        ensures value { result ≡ self.number }
        ensures among { result < 16 }
    {
        usize::from(self.number)
    }
}
