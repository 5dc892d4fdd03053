ghost use Rattle.std.specs.Prelude.{◌≡◌, ◌↔◌, IsTrue, All};

// Whether each byte is zero.
pub(crate) fn all_zero(bytes: &[u8]) -> bool
    ensures { IsTrue result ↔ All (λ byte. byte ≡ 0) bytes.now }
{
    bytes.iter().all(|byte| *byte == 0)
}
