//! A delay line, of any values that can be copied: the newest value comes first.

ghost use Rattle.std.specs.Prelude.{◌≡◌, ◌∷◌, length, replicate, take};

/// Fills a line with one value.
pub(crate) fn fill<T: Copy>(line: &mut [T], value: T)
    ensures { line.new ≡ replicate (length line.old) value }
{
    for place in line.iter_mut() {
        *place = value;
    }
}

/// Moves a line on by one place: its newest value is that, and its oldest is gone.
pub(crate) fn shift<T: Copy>(line: &mut [T], newest: T)
    ensures { line.new ≡ take (length line.old) (newest ∷ line.old) }
{
    let mut newest = newest;
    for place in line.iter_mut() {
        let older = *place;
        *place = newest;
        newest = older;
    }
}
