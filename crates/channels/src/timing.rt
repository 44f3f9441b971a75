//! The timing promise.

ghost use Rattle.channels.specs.Events.{RunsPutOut};
ghost use Rattle.channels.specs.Timing.{TimingHolds, EmittedLoads};

/// The timing promise holds of every well-defined design, every list of calls, the program that is then emitted, any cells, and any starts and
/// steps of a machine on it, by the definitions that the calls' contracts cite. Every such program loads. And of every program that load accepts, a
/// machine puts out what the one history of its array puts out.
pub fn timing_law<E, A>()
    ensures timing { TimingHolds E A }
    ensures loads { EmittedLoads }
    ensures runs { RunsPutOut E A }
{}
