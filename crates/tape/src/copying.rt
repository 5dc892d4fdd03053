ghost use Rattle.std.specs.Prelude.{◌≡◌, length};

// Copies the bytes of an entry to its part of the memory, which is as long. A function of its own by a rule of the project: how a
// tape copies an entry in will change, and in this one place.
pub(crate) fn copy_entry(part: &mut [u8], text: &[u8])
    requires { length part.old ≡ length text.now }
    ensures { part.new ≡ text.now }
{
    part.copy_from_slice(text);
}
