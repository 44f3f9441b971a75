//! Where a program's registers stand in their row.

ghost use Rattle.std.specs.Prelude.{◌≡◌, ◌+◌, ◌^◌, ◌<◌, ◌≤◌, true, length, sum, take};
ghost use Rattle.words.specs.Designs.{is_source};
ghost use Rattle.machine.specs.Wirings.{line_starts, register_at, wire_of};

use crate::moment::rest_place;
use crate::wiring::{STARTS, Wire};
use arrayvec::ArrayVec;
use words::graph::INPUT;
use words::program_table::Tap;

/// Where each line begins, and after the last line the present values.
fn line_starts(lines: &[u16]) -> ArrayVec<u32, STARTS>
    requires { length lines.now ≤ 33 }
    ensures starts { result.items ≡ line_starts lines.now }
    ensures short { sum lines.now < 2 ^ 22 }
{
    let mut starts = ArrayVec::new();
    let mut start = 0;
    for line in lines {
        starts.push(start);
        start += u32::from(*line);
    }
    starts.push(start);
    starts
}

/// The lines of a program of `count` nodes, with where each begins.
#[derive(Drop)]
pub(crate) struct Layout<'a> {
    count: usize,
    lines: &'a [u16],
    pub(crate) starts: ArrayVec<u32, STARTS>,
    ghost few: { count ≤ 32 },
    ghost all: { length lines.now ≡ count + 1 },
    ghost placed: { starts.items ≡ line_starts lines.now },
    ghost short: { sum lines.now < 2 ^ 22 },
}

impl<'a> Layout<'a> {
    /// The layout of a program of `count` nodes with lines of these lengths.
    pub(crate) fn of(count: usize, lines: &'a [u16]) -> Layout<'a>
        requires few { count ≤ 32 }
        requires all { length lines.now ≡ count + 1 }
        ensures count { result.count ≡ count }
        ensures lines { result.lines.now ≡ lines.now }
    {
        Layout {
            count,
            lines,
            starts: line_starts(lines),
        }
    }

    /// Where line k begins; after the last line, where the present values do.
    fn start(&self, k: usize) -> u32
        requires { k ≤ self.now.count + 1 }
        ensures start { result ≡ sum (take k self.now.lines.now) }
        ensures short { result < 2 ^ 22 }
    {
        self.starts[k]
    }

    /// The register that is read of a source at a delay.
    pub(crate) fn register(&self, source: u8, delay: u16) -> u32
        requires { is_source self.now.count source ≡ true }
        ensures { result ≡ register_at self.now.count self.now.lines.now source delay }
    {
        if delay == 0 {
            return self.start(self.count + 1) + u32::from(source);
        }
        let line = rest_place(self.count, usize::from(source));
        self.start(line) + u32::from(delay - 1)
    }

    /// What a tap reads.
    pub(crate) fn wire(&self, tap: Tap) -> Wire
        requires { is_source self.now.count tap.source ≡ true }
        ensures { result ≡ wire_of self.now.count self.now.lines.now tap }
    {
        let Tap { source, delay } = tap;
        let register = if delay == 0 && usize::from(source) == INPUT {
            None
        } else {
            Some(self.register(source, delay))
        };
        Wire { source, register }
    }
}
