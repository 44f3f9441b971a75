//! The elements of a case: read from a line, filled into the buffers and printed.

use cases::printing::Bits;
use std::fmt;
use std::num::{f32_from_bits_with_nan, f32_to_bits_with_nan};

/// An element of a cell library, as a line has it.
pub trait Element: Copy + PartialEq {
    /// What the buffers hold before a run.
    const FILLER: Self;

    fn read(text: &str) -> anyhow::Result<Self>;

    fn write<W: fmt::Write>(self, f: &mut fmt::Formatter<W>) -> fmt::Result;
}

/// An element as it is printed.
#[derive(Drop)]
pub struct Shown<E>(pub E);

impl<E: Element> fmt::Display for Shown<E> {
    fn fmt<W: fmt::Write>(&self, f: &mut fmt::Formatter<W>) -> fmt::Result {
        self.0.write(f)
    }
}

/// Whole cells: in decimal.
impl Element for i32 {
    const FILLER: i32 = -1_234_567_890;

    fn read(text: &str) -> anyhow::Result<i32> {
        Ok(text.parse()?)
    }

    fn write<W: fmt::Write>(self, f: &mut fmt::Formatter<W>) -> fmt::Result {
        write!(f, "{self}")
    }
}

/// Float cells: the bits, in hexadecimal.
impl Element for f32 {
    const FILLER: f32 = -12345.678;

    fn read(text: &str) -> anyhow::Result<f32> {
        Ok(f32_from_bits_with_nan(u32::from_str_radix(text, 16)?))
    }

    fn write<W: fmt::Write>(self, f: &mut fmt::Formatter<W>) -> fmt::Result {
        write!(f, "{}", Bits(f32_to_bits_with_nan(self)))
    }
}

/// Compare cells: in decimal.
impl Element for u16 {
    const FILLER: u16 = 12345;

    fn read(text: &str) -> anyhow::Result<u16> {
        Ok(text.parse()?)
    }

    fn write<W: fmt::Write>(self, f: &mut fmt::Formatter<W>) -> fmt::Result {
        write!(f, "{self}")
    }
}

/// The bubble layer: a dash where one is absent.
impl<E: Element> Element for Option<E> {
    const FILLER: Option<E> = Some(E::FILLER);

    fn read(text: &str) -> anyhow::Result<Option<E>> {
        if text == "-" {
            return Ok(None);
        }
        Ok(Some(E::read(text)?))
    }

    fn write<W: fmt::Write>(self, f: &mut fmt::Formatter<W>) -> fmt::Result {
        match self {
            Some(element) => element.write(f),
            None => write!(f, "-"),
        }
    }
}
