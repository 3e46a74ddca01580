use crate::file::{Row, sides};
use crate::trouble::Trouble;
use std::alloc::Global;

/// What is given and what is wanted of it, as they are written.
#[derive(Drop)]
pub struct Case {
    pub given: String,
    pub wanted: String,
}

/// A row as it stands, or within each text that `: inside BEFORE|AFTER => FRONT|BACK` sets. Where a row says nothing to be
/// wanted, `: wanted TEXT` says it, or else what is given is wanted.
pub fn cases(alloc: Global, row: &Row) -> Result<Vec<Case>, Trouble> {
    let (given, wanted) = sides(row.given);
    let wanted = wanted.or(row.setting("wanted")).unwrap_or(given);
    let mut made = Vec::new(alloc);
    for setting in row.settings {
        if setting.key.as_str() == "inside" {
            made.push(inside(alloc, setting.value.as_str(), given, wanted)?)?;
        }
    }
    if made.is_empty() {
        let given = String::from_str(alloc, given)?;
        let wanted = String::from_str(alloc, wanted)?;
        made.push(Case { given, wanted })?;
    }
    Ok(made)
}

fn inside(alloc: Global, around: &str, given: &str, wanted: &str) -> Result<Case, Trouble> {
    let (document, told) = sides(around);
    let told = told.unwrap_or("|");
    Ok(Case {
        given: within(alloc, document, given)?,
        wanted: within(alloc, told, wanted)?,
    })
}

/// A text with another in place of its first bar, if it has one.
fn within(alloc: Global, around: &str, text: &str) -> Result<String, Trouble> {
    match around.split_once('|') {
        Some((before, behind)) => Ok(format!(in alloc; "{before}{text}{behind}")?),
        None => Ok(String::from_str(alloc, around)?),
    }
}
