ghost use Rattle.std.specs.Prelude.{◌≡◌, MatchResult};
ghost use Rattle.hexadecimal.specs.Digits.{digit_value, pair_value, Spells, Refuses};

use crate::fault::HexFault;
use std::alloc::Global;

// The value of a hexadecimal digit, in either case.
fn digit(b: u8) -> Option<u8>
    ensures { result ≡ digit_value b }
{
    char::from(b).to_digit(16).map(|value| value as u8)
}

// The byte of two digits, the high one first.
fn pair(high: u8, low: u8) -> Option<u8>
    ensures { result ≡ pair_value high low }
{
    Some(16 * digit(high)? + digit(low)?)
}

// The bytes that a text spells, two digits a byte. (The kit's `hex` would be no plainer: it may answer want of memory for an
// empty text, which this may not, and speaks of digits and pairs by definitions of its own, from which a proof would have to
// lead to ours.)
pub fn decode(heap: Global, text: &[u8]) -> Result<Vec<u8>, HexFault>
    ensures { MatchResult result (λ v. Spells text.now v.items) (λ e. Refuses e text.now) }
{
    let (pairs, []) = text.as_chunks::<2>() else {
        return Err(HexFault::OddLength);
    };
    let mut bytes = Vec::new(heap);
    for [high, low] in pairs {
        bytes.push(pair(*high, *low).ok_or(HexFault::NotADigit)?)?;
    }
    Ok(bytes)
}
