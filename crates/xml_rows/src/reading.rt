//! Documents that come in pieces.

use rows::{Cut, Row, Trouble, bytes_of, cuts, pieces};
use std::alloc::Global;
use std::fmt::Write;

/// What reads documents.
pub trait Reads {
    /// Tells the answers on the pieces up to the first that is repeated, with `? ` where more bytes must come if `marked`.
    fn tell(
        alloc: Global,
        row: &Row,
        pieces: &[&[u8]],
        marked: bool,
        out: &mut String,
    ) -> Result<(), Trouble>;

    /// Tells the answers on a document, then on nothing more, behind more bytes, and at the end, parted by `; `.
    fn tell_again(
        alloc: Global,
        row: &Row,
        document: &[u8],
        out: &mut String,
    ) -> Result<(), Trouble>;
}

/// The document as a whole. What comes of it in pieces of one, two and three bytes and in two pieces, wherever it is cut, is
/// told too where it is something else.
pub fn tell_cuts<R: Reads>(alloc: Global, row: &Row, out: &mut String) -> Result<(), Trouble> {
    let document = row.bytes(alloc)?;
    R::tell(alloc, row, &[document.as_slice()], false, out)?;
    if row.is_set("whole") {
        return Ok(());
    }
    let whole = out.clone()?;
    for cut in &cuts(alloc, document.len())? {
        tell_cut::<R>(alloc, row, document.as_slice(), *cut, whole.as_str(), out)?;
    }
    Ok(())
}

fn tell_cut<R: Reads>(
    alloc: Global,
    row: &Row,
    document: &[u8],
    cut: Cut,
    whole: &str,
    out: &mut String,
) -> Result<(), Trouble> {
    let mut told = String::new(alloc);
    let pieces = pieces(alloc, document, cut)?;
    R::tell(alloc, row, pieces.as_slice(), false, &mut told)?;
    if told.as_str() != whole {
        write!(
            out,
            ", but of {} bytes and then {}: {told}",
            cut.first, cut.size
        )?;
    }
    Ok(())
}

/// Each piece ends with a bar.
pub fn tell_pieces<R: Reads>(alloc: Global, row: &Row, out: &mut String) -> Result<(), Trouble> {
    let mut made: Vec<Vec<u8>> = Vec::new(alloc);
    let mut rest = row.given;
    for _ in 0..=row.given.len() {
        let Some((piece, behind)) = rest.split_once('|') else {
            break;
        };
        made.push(bytes_of(alloc, piece)?)?;
        rest = behind;
    }
    if !rest.is_empty() {
        return Err(Trouble::Row("a piece without its bar"));
    }
    let mut pieces: Vec<&[u8]> = Vec::new(alloc);
    for piece in &made {
        pieces.push(piece.as_slice())?;
    }
    R::tell(alloc, row, pieces.as_slice(), true, out)
}

pub fn tell_again<R: Reads>(alloc: Global, row: &Row, out: &mut String) -> Result<(), Trouble> {
    let document = row.bytes(alloc)?;
    R::tell_again(alloc, row, document.as_slice(), out)
}
