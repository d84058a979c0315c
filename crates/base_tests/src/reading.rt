//! Readings of whole texts.
use article_read::{Command, LineFault, Lines};
use common::Kind;
use std::alloc::Global;

/// Reads a text in pieces of this size, or of one byte.
pub(crate) fn read(
    alloc: Global,
    text: &[u8],
    size: usize,
    out: &mut Vec<Command>,
) -> Result<u64, LineFault> {
    let mut lines = Lines::new(alloc);
    for piece in text.chunks(size.max(1)) {
        lines.feed(piece, out)?;
    }
    lines.finish(out)
}

pub(crate) fn refused(line: u64, kind: Kind) -> LineFault {
    LineFault::Refused { line, kind }
}
