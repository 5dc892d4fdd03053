ghost use Rattle.std.specs.Prelude.{◌≡◌, ◌∷◌};
ghost use Rattle.roll.specs.Floor.{raised};
ghost use Rattle.roll.specs.Life.{Lives};
ghost use Rattle.roll.specs.declared.kind.Kind.{Kind};
ghost use Rattle.floor.specs.Laid.{layer};

use roll::{Kind, Roll};
use tinyjambu::Engine;

// A floor on a roll: it can be laid, and lifted again.
pub trait Lay<R: Roll, E: Engine>: Roll {
    // The roll that it lies on, its engine, and its kind.
    ghost under: { Self → R };

    ghost works: { Self → E };

    ghost sort: { Self → Kind };

    // Lays a floor. From then on, whatever list of calls works the pile at its top, its life is as the law says.
    fn lay(below: R, engine: E, kind: Kind) -> Self
        ensures laid { (under result ≡ below) × (works result ≡ engine) × (sort result ≡ kind) }
        ensures means { Self.Roll.meaning result ≡ raised (layer (E.key engine) kind) (R.Roll.meaning below) }
        ensures floors { Self.Roll.layers result ≡ layer (E.key engine) kind ∷ R.Roll.layers below }
        ensures stands { Self.Roll.bottom result ≡ R.Roll.bottom below }
        ensures bytes { Self.Roll.image result ≡ R.Roll.image below }
        ensures writes { Self.Roll.writes ≡ R.Roll.writes }
        ensures life { Lives (Self.Roll.layers result) (Self.Roll.bottom result) };

    // Lifts it: gives back the roll below and the engine, as they are.
    fn lift(self) -> (R, E)
        ensures lifted { (result.0 ≡ under self) × (result.1 ≡ works self) }
        ensures means { Self.Roll.meaning self ≡ raised (layer (E.key result.1) (sort self)) (R.Roll.meaning result.0) }
        ensures floors { Self.Roll.layers self ≡ layer (E.key result.1) (sort self) ∷ R.Roll.layers result.0 }
        ensures stands { Self.Roll.bottom self ≡ R.Roll.bottom result.0 }
        ensures bytes { Self.Roll.image self ≡ R.Roll.image result.0 };
}
