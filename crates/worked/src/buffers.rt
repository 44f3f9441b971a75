//! Buffers that are too short.

use std::test::Fail;
use words::faults::Fault;

/// Lends a call every buffer of fewer than `needed` places, the front of some blank one: it answers the fault of that length, and the whole
/// stays blank.
pub(crate) fn shorter_buffers_stay<
    T: Copy + PartialEq,
    const N: usize,
    C: Fn(&mut [T]) -> Option<Fault>,
    F: Fn(usize) -> Fault,
>(blank: [T; N], needed: usize, call: C, fault: F) -> Result<(), Fail>
    requires call { C.IsAlwaysCallable call }
    requires fault { F.IsAlwaysCallable fault }
{
    for length in 0..needed.min(N) {
        let mut buffer = blank;
        if call(&mut buffer[..length]) != Some(fault(length)) {
            return Err(Fail::new("a short buffer was answered otherwise"));
        }
        if buffer != blank {
            return Err(Fail::new("a short buffer was written to"));
        }
    }
    Ok(())
}
