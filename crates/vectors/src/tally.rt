ghost use Rattle.std.specs.Prelude.{◌≡◌, ◌+◌, ◌-◌, ◌^◌, ◌≤◌, min, if◌then◌else◌, ◌==◌};

use std::fmt;

// How many cases were run, and how many of them agree.
#[derive(Clone, Copy)]
pub struct Tally {
    cases: u64,
    agreeing: u64,
    ghost part: { agreeing ≤ cases },
}

impl Tally {
    // No case yet.
    pub(crate) fn new() -> Tally
        ensures { (result.cases ≡ 0) × (result.agreeing ≡ 0) }
    {
        Tally {
            cases: 0,
            agreeing: 0,
        }
    }

    // Counts a case, up to what a `u64` holds.
    pub(crate) fn add(&mut self, agrees: bool)
        ensures cases { self.new.cases ≡ min (self.old.cases + 1) (2 ^ 64 - 1) }
        ensures agreeing { self.new.agreeing ≡ (if agrees then min (self.old.agreeing + 1) (2 ^ 64 - 1) else self.old.agreeing) }
    {
        self.cases = self.cases.saturating_add(1);
        if agrees {
            self.agreeing = self.agreeing.saturating_add(1);
        }
    }

    // Whether each case agrees.
    pub(crate) fn all_agree(&self) -> bool
        ensures { result ≡ (self.now.agreeing == self.now.cases) }
    {
        self.agreeing == self.cases
    }
}

impl fmt::Display for Tally {
    fn fmt<W: fmt::Write>(&self, f: &mut fmt::Formatter<W>) -> fmt::Result {
        let agreeing = self.agreeing;
        let cases = self.cases;
        write!(f, "{agreeing} of {cases} cases agree, with both engines")
    }
}
