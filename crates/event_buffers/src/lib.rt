//! What a run puts into buffers and reads from them: copies of content, one laid over another, each open for one use at a time.
#![tactic(auto)]

mod buffer;
mod buffers;
mod content;
mod fault;
mod kept;
pub mod law;
mod layer;
mod told;
mod weight;

pub use buffers::Buffers;
pub use fault::BufferFault;
pub use told::Told;
