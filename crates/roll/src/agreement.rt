ghost use Rattle.std.specs.Prelude.{◌<◌, ◌↔◌, IsTrue};
ghost use Rattle.roll.specs.Roll.{count, entry};
ghost use Rattle.roll.specs.Agree.{AlikeThere, Agree};
ghost use Rattle.roll.specs.Changes.{Unchanged};

use crate::limits::LONGEST;
use crate::roll::Roll;

// Whether two rolls have the same text under a number that both have, or are both broken there. Both stay as they were.
fn alike<R: Roll, S: Roll>(left: &mut R, right: &mut S, number: u32) -> bool
    requires left { number < count (R.Roll.meaning left.old) }
    requires right { number < count (S.Roll.meaning right.old) }
    ensures exact { IsTrue result ↔ AlikeThere (entry (R.Roll.meaning left.old) number) (entry (S.Roll.meaning right.old) number) }
    ensures left { Unchanged R.Roll left.old left.new }
    ensures right { Unchanged S.Roll right.old right.new }
{
    // Buffers with a length beside them: no heap, and a roll reads into a slice.
    let mut one = [0u8; LONGEST];
    let mut other = [0u8; LONGEST];
    match (left.read(number, &mut one), right.read(number, &mut other)) {
        (Ok(n), Ok(k)) => one[..n] == other[..k],
        (Err(_), Err(_)) => true,
        (Ok(_), Err(_)) | (Err(_), Ok(_)) => false,
    }
}

// Whether two rolls of any make agree: they have as many entries, and under each number the same text, or both are broken
// there. Both stay as they were.
pub fn agree<R: Roll, S: Roll>(left: &mut R, right: &mut S) -> bool
    ensures exact { IsTrue result ↔ Agree (R.Roll.meaning left.old) (S.Roll.meaning right.old) }
    ensures left { Unchanged R.Roll left.old left.new }
    ensures right { Unchanged S.Roll right.old right.new }
{
    let count = left.count();
    if right.count() != count {
        return false;
    }
    // By no `all` (tried): its closure would read both rolls, and the check knows nothing of what a closure leaves of what it
    // captures unless an invariant says it, which would be as long as the loop's.
    for number in 0..count {
        if !alike(left, right, number) {
            return false;
        }
    }
    true
}
