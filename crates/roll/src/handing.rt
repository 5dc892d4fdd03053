ghost use Rattle.std.specs.Prelude.{◌≡◌};
ghost use Rattle.roll.specs.Floor.{piled};
ghost use Rattle.roll.specs.Life.{Lives};

use crate::roll::Roll;

// Hands in a roll, as it is. Whatever list of calls works it from then on, its life is as the law says.
pub fn hand_in<R: Roll>(roll: R) -> R
    ensures same { result ≡ roll }
    ensures stands { R.Roll.meaning result ≡ piled (R.Roll.layers result) (R.Roll.bottom result) }
    ensures life { Lives (R.Roll.layers result) (R.Roll.bottom result) }
{
    roll
}
