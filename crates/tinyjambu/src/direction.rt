ghost use Rattle.std.specs.Prelude.{◌≡◌};
ghost use Rattle.tinyjambu.specs.Duplex.{text_of};

// Whether text is sealed, or sealed text opened. A value that one walk is given, and no step passed in: the walk is proved once,
// and opening by the facts of sealing.
#[derive(Clone, Copy)]
pub enum Direction {
    Sealing,
    Opening,
}

impl Direction {
    // Which of input and output is the text.
    pub(crate) fn text<T: Copy>(self, input: T, output: T) -> T
        ensures { result ≡ text_of self input output }
    {
        match self {
            Direction::Sealing => input,
            Direction::Opening => output,
        }
    }
}
