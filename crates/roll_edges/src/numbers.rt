ghost use Rattle.std.specs.Prelude.{◌<◌};

// Numbers that look random, and are the same in every run: a linear congruential generator.
#[derive(Drop)]
pub struct Numbers {
    state: u64,
}

impl Numbers {
    // The numbers that begin from a state.
    pub(crate) fn new(state: u64) -> Numbers {
        Numbers { state }
    }

    // The next number below a limit.
    pub(crate) fn below(&mut self, limit: u32) -> u32
        requires { 0 < limit }
        ensures { result < limit }
    {
        self.state = self
            .state
            .wrapping_mul(6364136223846793005)
            .wrapping_add(1442695040888963407);
        (self.state >> 33) as u32 % limit
    }
}
