//! Bytes to lexemes (XML 1.0, 2 and 3.1), in whatever pieces the bytes come.
#![tactic(auto)]

mod cut;
mod form;
mod judge;
pub mod laws;
mod lexeme;
mod lexer;
mod plain_tag;
mod prolog;
mod run;
mod scan;
mod simple;
mod tables;
mod tag;
mod text;

pub use lexeme::{Body, Ending, Lexeme, RawAttr, Step};
pub use lexer::Lexer;
pub use run::{Run, lex};
