use thiserror::Error;

/// Why a variable isn't assigned.
#[derive(Clone, Copy, Debug, PartialEq, Eq, Error)]
pub enum StoreFault {
    #[error("no variable has this name")]
    NoVariable,
}
