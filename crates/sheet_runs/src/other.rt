use stx_base::Text;

/// A document that is read beside the main one.
#[derive(Debug, Drop)]
pub struct Other {
    pub id: u32,
    pub name: Text,
    /// How many of its bytes were read.
    pub read: u64,
}
