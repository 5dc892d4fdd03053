ghost use Rattle.std.specs.Prelude.{◌≡◌, ◌/◌, length, MatchOption, bit_xor, slice_index, slice_set};

// Alters the middle byte by its lowest bit, and answers where it stands; of no bytes it alters none.
pub(crate) fn altered(bytes: &mut [u8]) -> Option<usize>
    ensures { MatchOption result (length bytes.old ≡ 0) (λ at. (at ≡ length bytes.old / 2) × (bytes.new ≡ slice_set bytes.old at (bit_xor (slice_index bytes.old at) 1))) }
{
    if bytes.is_empty() {
        return None;
    }
    let at = bytes.len() / 2;
    // By the index that it answers: of a write through a slice's `get_mut` the proof knows no byte afterwards.
    bytes[at] ^= 1;
    Some(at)
}
