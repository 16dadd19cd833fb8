// Numbers that look random and are the same in every run.
ghost use Rattle.std.specs.Prelude.{◌<◌, length};

#[derive(Drop)]
pub struct Dice {
    state: u64,
}

impl Dice {
    pub fn new(seed: u64) -> Dice {
        Dice {
            state: seed.wrapping_mul(0x9e37_79b9_7f4a_7c15) | 1,
        }
    }

    // A number below the bound; 0 where the bound is 0.
    // No Option: the bound is 0 only where a book has one station and another is drawn, and there the 0 is wanted.
    pub fn roll(&mut self, bound: usize) -> usize
        ensures { 0 < bound → result < bound }
    {
        let a = self.state;
        let b = a ^ (a << 13);
        let c = b ^ (b >> 7);
        let d = c ^ (c << 17);
        self.state = d;
        // `as`: see main.rt.
        ((d >> 32) as usize).checked_rem(bound).unwrap_or(0)
    }

    // Yes, once in so many times.
    pub fn hits(&mut self, times: usize) -> bool {
        self.roll(times) == 0
    }

    // One of these.
    pub fn one_of(&mut self, choices: &[usize]) -> usize
        requires { 0 < length choices.now }
    {
        choices[self.roll(choices.len())]
    }
}
