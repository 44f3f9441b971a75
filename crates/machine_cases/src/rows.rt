//! Rows of elements and tables of weights, as a line has them.

use crate::element::Element;
use anyhow::Context;
use cells::weights::{Weight, Weights};
use std::alloc::Global;

/// Reads a row: elements parted by spaces, `TIMES*ELEMENT` for the same one many times.
pub(crate) fn read_row<E: Element>(alloc: Global, text: &str) -> anyhow::Result<Vec<E>> {
    let mut row = Vec::new(alloc);
    for item in text.split_whitespace() {
        let (times, element) = item.split_once('*').unwrap_or(("1", item));
        let times = times.parse::<usize>()?;
        let element = E::read(element)?;
        row.extend((0..times).map(|_| element))?;
    }
    Ok(row)
}

/// Reads `WEIGHT,SOURCE`.
fn read_weight<E: Element>(text: &str) -> anyhow::Result<Weight<E>> {
    let (factor, source) = text.split_once(',').context("a weight has no source")?;
    Ok(Weight {
        factor: E::read(factor)?,
        source: source.parse()?,
    })
}

/// Reads a table: `WEIGHT,SOURCE` of all operations, then `OPERATION,WEIGHT,SOURCE` of some.
pub(crate) fn read_weights<E: Element>(text: &str) -> anyhow::Result<Weights<E>> {
    let mut items = text.split_whitespace();
    let first = items.next().context("a table has no weight")?;
    let mut weights = Weights::all(read_weight::<E>(first)?);
    for item in items {
        let (operation, weight) = item.split_once(',').context("a weight has no operation")?;
        weights.set(operation.parse()?, read_weight(weight)?);
    }
    Ok(weights)
}

/// How many places of a row, from one on, still have the filler.
pub(crate) fn fillers_from<E: Element>(row: &[E], start: usize) -> usize {
    row.iter()
        .skip(start)
        .filter(|element| **element == E::FILLER)
        .count()
}
