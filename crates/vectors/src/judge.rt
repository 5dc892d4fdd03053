ghost use Rattle.std.specs.Prelude.{OnOk};
ghost use Rattle.vectors.specs.Cases.{SealsTo, OpensTo};

use crate::agreement::check_agreement;
use crate::case::Case;
use crate::fault::CaseFault;
use std::alloc::Global;
use tinyjambu::{BitEngine, Key, KeySize, WordEngine};

// Runs a case with both engines.
pub(crate) fn judge(heap: Global, size: KeySize, case: &Case) -> Result<(), CaseFault>
    ensures sealed { OnOk result (SealsTo case.now.key.items case.now) }
    ensures opened { OnOk result (OpensTo case.now.key.items case.now) }
{
    if KeySize::try_from(case.key.len()) != Ok(size) {
        return Err(CaseFault::Malformed);
    }
    let key = Key::try_from(case.key.as_slice()).map_err(|_| CaseFault::Malformed)?;
    check_agreement(heap, &mut BitEngine::new(key), case, CaseFault::BitsDiffer)?;
    check_agreement(
        heap,
        &mut WordEngine::new(key),
        case,
        CaseFault::WordsDiffer,
    )
}

// Runs the case of a block of lines with both engines.
pub(crate) fn judge_block(heap: Global, size: KeySize, block: &str) -> Result<(), CaseFault> {
    judge(heap, size, &Case::read(heap, block)?)
}
