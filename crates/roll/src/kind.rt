ghost use Rattle.std.specs.Prelude.{◌≡◌};
ghost use Rattle.roll.specs.Kinds.{kind_byte};

// What a floor is laid for; its byte goes into each seal.
#[derive(Clone, Copy)]
pub enum Kind {
    Scene = 1,
    Preview = 2,
    Lock = 3,
}

// The byte of a kind.
impl From<Kind> for u8 {
    ghost from_gives = { λ kind byte. byte ≡ kind_byte kind };

    fn from(kind: Kind) -> u8 {
        kind as u8
    }
}
