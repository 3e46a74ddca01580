use stx_base::Text;

/// What an engine is handed.
#[derive(Clone, Copy, Debug)]
pub enum Piece<'a> {
    /// The run begins.
    Start,
    /// The next bytes of the document that was asked for.
    Bytes(&'a [u8]),
    /// The document that was asked for ends.
    End,
    /// The wanted document is there.
    Opened,
    /// There is no wanted document.
    Absent,
}

/// What an engine wants next.
#[derive(Debug, Drop)]
pub enum Pumped {
    /// Bytes of the main document, or its end.
    Main,
    /// Bytes of the newest open document, or its end.
    Document,
    /// A document of this name, or word that there is none.
    Open(Text),
    /// Nothing: the run is done.
    Done,
    /// Nothing: the run was stopped.
    Stopped,
}
