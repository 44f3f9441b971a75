//! What the case programs print: rows of items, and bits.

ghost use Rattle.std.specs.Prelude.{Some};
ghost use Rattle.std.specs.Fmt.{◌++?◌};
ghost use Rattle.cases.specs.Printing.{after_spaces, eight_digits};

use std::fmt;
use std::fmt::Display;

/// 32 bits, printed as eight hexadecimal digits.
#[derive(Clone, Copy)]
pub struct Bits(pub u32);

impl Display for Bits {
    ghost output = { λ bits. Some (eight_digits bits.0) };

    fn fmt<W: fmt::Write>(&self, f: &mut fmt::Formatter<W>) -> fmt::Result {
        write!(f, "{:08X}", self.0)
    }
}

/// A name with items, printed as the name and each item after a space.
#[derive(Clone, Copy)]
pub struct Row<'a, T>(pub &'a str, pub &'a [T]);

impl<T: Display> Display for Row<'_, T> {
    ghost output = { λ row. Some row.0.now ++? after_spaces T.output row.1.now };

    fn fmt<W: fmt::Write>(&self, f: &mut fmt::Formatter<W>) -> fmt::Result {
        let Row(name, items) = *self;
        f.write_str(name)?;
        for item in items {
            write!(f, " {item}")?;
        }
        Ok(())
    }
}
