//! The pieces that a document comes in.

use crate::trouble::Trouble;
use std::alloc::Global;

/// A document's first bytes, and then pieces of one size.
#[derive(Clone, Copy)]
pub struct Cut {
    pub first: usize,
    pub size: usize,
}

/// Pieces of one, two and three bytes, and two pieces wherever so many bytes can be cut.
pub fn cuts(alloc: Global, len: usize) -> Result<Vec<Cut>, Trouble> {
    let mut made = Vec::new(alloc);
    for size in 1..4 {
        made.push(Cut { first: 0, size })?;
    }
    for first in 1..len {
        made.push(Cut { first, size: len })?;
    }
    Ok(made)
}

pub fn pieces<'a>(alloc: Global, document: &'a [u8], cut: Cut) -> Result<Vec<&'a [u8]>, Trouble> {
    let mut made = Vec::new(alloc);
    let (head, rest) = document.split_at(cut.first.min(document.len()));
    made.push(head)?;
    for piece in rest.chunks(cut.size.max(1)) {
        made.push(piece)?;
    }
    Ok(made)
}
