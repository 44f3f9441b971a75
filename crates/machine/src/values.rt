//! That a design's values are determined, and that the channels of its array keep time.

ghost use Rattle.std.specs.Prelude.{◌≡◌, ℕ};
ghost use Rattle.words.specs.Designs.{feed_at};
ghost use Rattle.bench.specs.Orders.{Ranked};
ghost use Rattle.bench.specs.Retimings.{order, at_rest};
ghost use Rattle.cells.specs.Meaning.{Meaning};
ghost use Rattle.machine.specs.Arrays.{array_of, ArrayDetermined, ChannelsKeepTime};
ghost use Rattle.machine.specs.Values.{Determined};

use bench::bench::Bench;
use bench::order::Order;

/// The order in which the values of one time follow from each other and from those before. So a design's values are determined, whatever its
/// cells compute: there is a history that solves it, and no other. The same holds of the array of the bench, and the array's channels keep time.
pub fn value_order<E, A>(bench: &Bench) -> Order
    ensures listed { result ≡ order bench.now.design.graph at_rest }
    ensures ranked { Ranked bench.now.design.graph.count (feed_at bench.now.design.graph) result }
    ensures determined { (m : Meaning E A) (rest x : ℕ → E) → Determined bench.now.design.graph m rest x }
    ensures array { (m : Meaning E A) (rest x : ℕ → E) → ArrayDetermined (array_of bench.now.design.graph bench.now.retiming) m rest x }
    ensures channels { (m : Meaning E A) → ChannelsKeepTime bench.now.design.graph bench.now.retiming m }
{
    bench.source_order()
}
