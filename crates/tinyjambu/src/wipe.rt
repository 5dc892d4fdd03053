ghost use Rattle.std.specs.Prelude.{◌≡◌, length, replicate};

// Guards an out buffer: on every way out of its scope the whole buffer is wiped to zeros, unless it was told to keep it.
pub struct Wipe<'a> {
    pub out: &'a mut [u8],
}

impl Wipe<'_> {
    // Keeps what is in the buffer: there is nothing to wipe any more.
    pub fn keep(self)
        ensures { self.exit.0.now ≡ self.entry.out.now }
    {
        let Wipe { out: _kept } = self;
    }
}

impl Drop for Wipe<'_> {
    fn drop(self)
        ensures { self.exit.0.now ≡ replicate (length self.entry.out.now) 0 }
    {
        self.out.fill(0);
        let Wipe { out: _ } = self;
    }
}
