//! Rows of tests as text: files of them are read, and what comes of each is compared with what is wanted. `docs/TESTS.md` has
//! their format.
#![tactic(auto)]

mod case;
mod cutting;
mod escape;
mod file;
mod name;
mod run;
mod trouble;

pub use cutting::{Cut, cuts, pieces};
pub use escape::{bytes_of, string_of, text_of};
pub use file::{Row, Setting};
pub use name::{binding_of, name_of, tell_name};
pub use run::{Tables, run_rows};
pub use trouble::Trouble;
