ghost use Rattle.std.specs.Prelude.{◌≡◌, ◌↔◌, IsTrue, OnOk, length, Ok};
ghost use Rattle.vectors.specs.Cases.{SealsTo, OpensTo};

use crate::case::Case;
use crate::fault::CaseFault;
use std::alloc::Global;
use tinyjambu::{Engine, Fault};

// Whether a call was taken and filled its whole out buffer with these bytes.
fn gave(answer: Result<usize, Fault>, out: &[u8], bytes: &[u8]) -> bool
    ensures { IsTrue result ↔ ((answer ≡ Ok (length out.now)) × (out.now ≡ bytes.now)) }
{
    answer == Ok(out.len()) && out == bytes
}

// Whether sealing the text of a case gives exactly its sealed bytes. What the engine writes is left in `out`, which is as long as
// those.
fn seals<E: Engine>(engine: &mut E, case: &Case, out: &mut [u8]) -> bool
    ensures meant { IsTrue result → SealsTo (E.key engine.old) case.now }
    ensures same { E.key engine.new ≡ E.key engine.old }
{
    let answer = tinyjambu::seal(engine, &case.nonce, &case.ad, &case.text, out);
    gave(answer, out, &case.sealed)
}

// Whether opening the sealed bytes of a case gives exactly its text. What the engine writes is left in `out`, which is as long as
// that.
fn opens<E: Engine>(engine: &mut E, case: &Case, out: &mut [u8]) -> bool
    ensures meant { IsTrue result → OpensTo (E.key engine.old) case.now }
    ensures same { E.key engine.new ≡ E.key engine.old }
{
    let answer = tinyjambu::open(engine, &case.nonce, &case.ad, &case.sealed, out);
    gave(answer, out, &case.text)
}

// Checks that a case agrees with an engine of its key, both ways, and answers `differs` where it does not.
pub(crate) fn check_agreement<E: Engine>(
    heap: Global,
    engine: &mut E,
    case: &Case,
    differs: CaseFault,
) -> Result<(), CaseFault>
    ensures sealed { OnOk result (SealsTo (E.key engine.old) case.now) }
    ensures opened { OnOk result (OpensTo (E.key engine.old) case.now) }
{
    let mut sealed = vec![in heap; 0u8; case.sealed.len()]?;
    let mut text = vec![in heap; 0u8; case.text.len()]?;
    if seals(engine, case, &mut sealed) && opens(engine, case, &mut text) {
        Ok(())
    } else {
        Err(differs)
    }
}
