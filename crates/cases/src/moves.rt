//! The moves of a case.

ghost use Rattle.std.specs.Prelude.{IfOk};
ghost use Rattle.cases.specs.Moves.{Lends, Says};

use crate::rows::parse_row;
use anyhow::bail;
use bench::calls::Call;
use std::alloc::Global;

/// A move of a bench, as a line has it.
#[derive(Drop)]
pub enum Move {
    Lag(Vec<i32>),
    Slow(u32),
    Settle,
}

impl Move {
    /// Reads `lag SHIFT SHIFT ..`, `slow FACTOR` or `settle`.
    pub fn parse(alloc: Global, text: &str) -> anyhow::Result<Move>
        ensures { IfOk result (Says text.now) }
    {
        match (text.strip_prefix("lag "), text.strip_prefix("slow ")) {
            (Some(shifts), _) => Ok(Move::Lag(parse_row(alloc, shifts, str::parse::<i32>)?)),
            (_, Some(factor)) => Ok(Move::Slow(factor.parse::<u32>()?)),
            _ if text == "settle" => Ok(Move::Settle),
            _ => bail!("a line has no such move"),
        }
    }

    /// The call of a bench that makes the move, with its row lent.
    pub fn call(&self) -> Call<'_>
        ensures { Lends self.now result }
    {
        match self {
            Move::Lag(shifts) => Call::Lag { shifts },
            Move::Slow(factor) => Call::Slow { factor: *factor },
            Move::Settle => Call::Settle,
        }
    }
}
