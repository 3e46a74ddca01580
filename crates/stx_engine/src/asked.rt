use command_words::Param;
use stx_base::{Limits, List, Text};

/// What is asked of a sheet.
#[derive(Debug, Drop)]
pub struct Asked {
    /// The sheet's name.
    pub name: Text,
    pub params: List<Param>,
    pub limits: Limits,
}
