//! Names by the namespaces that are declared where they stand (Namespaces in XML 1.0).
#![tactic(auto)]

mod declaration;
mod in_force;
pub mod laws;
mod parts;
mod resolved;
mod scopes;
mod twins;
mod words;

pub use parts::{Parts, is_qname, parts_of};
pub use resolved::{NameFault, Resolved};
pub use scopes::Scopes;
