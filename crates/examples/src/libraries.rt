//! The cells that design E is worked with.

ghost use Rattle.std.specs.Prelude.{◌≡◌};
ghost use Rattle.examples.specs.Libraries.{weights_of_e};

use cells::weights::{Weight, Weights};
use cells::whole::WholeCells;

/// Operation 0 weighs source 0 by 2, operation 1 the input by 3, and all others nothing: no source has the number 255.
pub fn cells_of_e() -> WholeCells
    ensures { result.weights.table ≡ weights_of_e }
{
    let mut weights = Weights::all(Weight {
        factor: 1,
        source: 255,
    });
    weights.set(
        0,
        Weight {
            factor: 2,
            source: 0,
        },
    );
    weights.set(
        1,
        Weight {
            factor: 3,
            source: 32,
        },
    );
    WholeCells { weights }
}
