use tinyjambu::Engine;

// An engine that counts its runs, which another makes for it.
#[derive(Drop)]
pub struct Counting<E> {
    inner: E,
    runs: u32,
}

impl<E: Engine> Counting<E> {
    // An engine that has made no run.
    pub(crate) fn new(inner: E) -> Counting<E> {
        Counting { inner, runs: 0 }
    }

    // How many runs it has made.
    pub(crate) fn runs(&self) -> u32 {
        self.runs
    }
}

impl<E: Engine> Engine for Counting<E> {
    ghost key = { λ s. E.key s.inner };

    ghost sized = { λ s. E.sized s.inner };

    fn short_run(&mut self, state: [u32; 4]) -> [u32; 4] {
        self.runs = self.runs.saturating_add(1);
        self.inner.short_run(state)
    }

    fn long_run(&mut self, state: [u32; 4]) -> [u32; 4] {
        self.runs = self.runs.saturating_add(1);
        self.inner.long_run(state)
    }
}
