//! Names are written as they are told: `prefix{URI}local`, or the local part alone.

use crate::escape::text_of;
use crate::trouble::Trouble;
use std::alloc::Global;
use std::fmt::Write;
use stx_base::{Binding, Name};

pub fn name_of(alloc: Global, written: &str) -> Result<Name, Trouble> {
    let (prefix, rest) = written.split_once('{').unwrap_or(("", written));
    let (uri, local) = rest.split_once('}').unwrap_or(("", rest));
    Ok(Name {
        uri: text_of(alloc, uri)?,
        local: text_of(alloc, local)?,
        prefix: text_of(alloc, prefix)?,
    })
}

/// `prefix=URI`
pub fn binding_of(alloc: Global, written: &str) -> Result<Binding, Trouble> {
    let (prefix, uri) = written.split_once('=').unwrap_or((written, ""));
    Ok(Binding {
        prefix: text_of(alloc, prefix)?,
        uri: text_of(alloc, uri)?,
    })
}

pub fn tell_name(name: &Name, out: &mut String) -> Result<(), Trouble> {
    if !name.prefix.is_empty() || !name.uri.is_empty() {
        write!(out, "{}{{{}}}", name.prefix.as_str(), name.uri.as_str())?;
    }
    out.push_str(name.local.as_str())?;
    Ok(())
}
