//! Feeds and nodes in the z-notation.

use std::fmt;
use words::graph::{INPUT, Node};

/// A feed in the z-notation: a delay of k is z^-k, node j is vj, the input is x.
#[derive(Drop)]
pub(crate) struct Feed {
    pub(crate) source: usize,
    pub(crate) delay: u16,
}

impl fmt::Display for Feed {
    fn fmt<W: fmt::Write>(&self, f: &mut fmt::Formatter<W>) -> fmt::Result {
        let Feed { source, delay } = *self;
        match source {
            INPUT => write!(f, "z^-{delay} x"),
            node => write!(f, "z^-{delay} v{node}"),
        }
    }
}

/// A node with its number: what it hears, and its operation.
#[derive(Drop)]
pub(crate) struct Heard<'a> {
    pub(crate) number: usize,
    pub(crate) node: &'a Node,
}

impl fmt::Display for Heard<'_> {
    fn fmt<W: fmt::Write>(&self, f: &mut fmt::Formatter<W>) -> fmt::Result {
        let Heard { number, node } = *self;
        let feeds = node.feeds.iter().enumerate().filter_map(|(source, delay)| {
            let delay = u16::from((*delay)?);
            Some(Feed { source, delay })
        });
        write!(f, "v{number} <-")?;
        for (place, feed) in feeds.enumerate() {
            let sign = if place == 0 { "" } else { " +" };
            write!(f, "{sign} {feed}")?;
        }
        let operation = node.operation;
        write!(f, "  (operation {operation})")
    }
}
