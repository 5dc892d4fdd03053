ghost use Rattle.std.specs.Prelude.{◌≡◌, ◌<◌};
ghost use Rattle.tinyjambu.specs.Duplex.{frame_bits};

// What a run of the permutation is for.
#[derive(Clone, Copy)]
pub enum Phase {
    Nonce,
    Data,
    Text,
    FirstTag,
    LastTag,
}

impl Phase {
    // The bits that go into s36 to s38 before a run, so that no phase is taken for another.
    pub(crate) fn frame_bits(self) -> u32
        ensures is { result ≡ frame_bits self }
        ensures few { result < 8 }
    {
        match self {
            Phase::Nonce => 1,
            Phase::Data => 3,
            Phase::Text => 5,
            Phase::FirstTag | Phase::LastTag => 7,
        }
    }
}
