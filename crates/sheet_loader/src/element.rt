use stx_base::{Attr, List, Name};

/// A start tag, without its namespace declarations: where it begins, and how many declarations were in force before it.
#[derive(Drop)]
pub struct StartTag {
    pub offset: u64,
    pub name: Name,
    pub attrs: List<Attr>,
    pub around: usize,
}
