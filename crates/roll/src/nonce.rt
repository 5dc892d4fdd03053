ghost use Rattle.std.specs.Prelude.{◌≡◌};
ghost use Rattle.roll.specs.Floor.{nonce};

// What a nonce is made of: the name of a roll, the number of a floor and that of an entry.
#[derive(Clone, Copy)]
pub struct Nonce {
    pub name: u32,
    pub floor: u32,
    pub entry: u32,
}

// The twelve bytes of a nonce: name, floor and entry, each with its least byte first.
impl From<Nonce> for [u8; 12] {
    ghost from_gives = { λ n bytes. bytes ≡ nonce n.name n.floor n.entry };

    fn from(nonce: Nonce) -> [u8; 12] {
        let [a, b, c, d] = nonce.name.to_le_bytes();
        let [e, f, g, h] = nonce.floor.to_le_bytes();
        let [i, j, k, l] = nonce.entry.to_le_bytes();
        [a, b, c, d, e, f, g, h, i, j, k, l]
    }
}
