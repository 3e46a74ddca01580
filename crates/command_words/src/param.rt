ghost use Rattle.std.specs.Prelude.{◌≡◌, IfOk, map};
ghost use Rattle.std.specs.Str.{chars};
ghost use Rattle.command_words.specs.Words.{Reads, ReadsItems, each_param, has_twice, param_of, params_of};

use crate::fault::WordsFault;
use std::alloc::Global;
use std::collections::BTreeSet;
use stx_base::{List, Memory, Text, is_ncname};

/// A parameter's name and the text that it is given.
#[derive(Debug, Drop)]
pub struct Param {
    pub name: Text,
    pub value: Text,
}

/// The parameters that the words give, no two of one name.
pub(crate) fn read_params(alloc: Global, words: &[&str]) -> Result<List<Param>, WordsFault>
    ensures { Reads (params_of (map (λ word. word.now) words.now)) result }
{
    let params = each_param(alloc, words)?;
    if has_twice(alloc, params.as_slice())? {
        return Err(WordsFault::Usage);
    }
    Ok(List::from_vec(params))
}

fn each_param(alloc: Global, words: &[&str]) -> Result<Vec<Param>, WordsFault>
    ensures { ReadsItems (each_param (map (λ word. word.now) words.now)) result }
{
    let mut params = Vec::new(alloc);
    for word in words {
        let param = read_param(alloc, word)?;
        params.push(param)?;
    }
    Ok(params)
}

// The parameter that a word gives.
fn read_param(alloc: Global, word: &str) -> Result<Param, WordsFault>
    ensures { Reads (param_of word.now) result }
{
    match word.split_once('=') {
        Some((name, value)) if is_ncname(name) => Ok(make_param(alloc, name, value)?),
        _ => Err(WordsFault::Usage),
    }
}

fn make_param(alloc: Global, name: &str, value: &str) -> Result<Param, Memory>
    ensures { IfOk result (λ param. (param.name ≡ chars name.now) × (param.value ≡ chars value.now)) }
{
    let name = Text::of(alloc, name)?;
    let value = Text::of(alloc, value)?;
    Ok(Param { name, value })
}

// Two have one name. The names are kept in a set, so that none is looked for one by one.
fn has_twice(alloc: Global, params: &[Param]) -> Result<bool, Memory>
    ensures { IfOk result (λ found. found ≡ has_twice params.now) }
{
    let mut names: BTreeSet<&str> = BTreeSet::new(alloc);
    for param in params {
        if !names.insert(param.name.as_str())? {
            return Ok(true);
        }
    }
    Ok(false)
}
