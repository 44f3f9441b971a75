//! The worked results, proved together.

ghost use Rattle.channels.specs.Worked.{Worked};

/// The worked results hold, by the definitions that the calls' contracts cite.
pub fn worked_results()
    ensures { Worked }
{}
