//! Patterns: whether one fits the current node of a path, which is its last, and the priority of each of its alternatives.

ghost use Rattle.std.specs.List.{All};
ghost use Rattle.std.specs.Prelude.{IfOk};
ghost use Rattle.stxpath_syntax.specs.Shape.{PredicatesCanBeEvaluated};

use crate::evaluation::variables_of;
use crate::paths::path_of;
use crate::syntax::{dialect_of, scope_of};
use crate::variables::Variables;
use match_patterns::{default_priority, matches};
use node_stack::NodeStack;
use rows::{Row, Trouble, text_of};
use std::alloc::Global;
use std::fmt::Write;
use stx_base::{Limits, Memory};
use stxpath_syntax::{Alternative, ParseFault, Pattern, law, read_pattern};

fn pattern_of(alloc: Global, row: &Row) -> Result<Pattern, Trouble>
    ensures { IfOk result (λ pattern. All PredicatesCanBeEvaluated pattern.alternatives) }
{
    law::can_be_evaluated();
    let text = text_of(alloc, row.given)?;
    let scope = scope_of(alloc, row)?;
    match read_pattern(alloc, &text, &scope, dialect_of(row)) {
        Ok(pattern) => Ok(pattern),
        Err(fault) => Err(unread(fault)),
    }
}

fn unread(_fault: ParseFault) -> Trouble {
    Trouble::Row("a pattern that isn't read")
}

/// Whether some alternative fits the current node.
fn some_fits(
    alloc: Global,
    alternatives: &[Alternative],
    stack: &NodeStack,
    vars: &Variables,
    limits: &Limits,
) -> Result<bool, Memory>
    requires { All PredicatesCanBeEvaluated alternatives.now }
{
    for alternative in alternatives {
        if matches(alloc, alternative, stack, vars, limits)? {
            return Ok(true);
        }
    }
    Ok(false)
}

pub fn tell_fit(alloc: Global, row: &Row, out: &mut String) -> Result<(), Trouble> {
    let stack = path_of(alloc, row)?;
    let fits = fits_on(alloc, row, &stack);
    drop(stack);
    Ok(out.push_str(if fits? { "yes" } else { "no" })?)
}

fn fits_on(alloc: Global, row: &Row, stack: &NodeStack) -> Result<bool, Trouble> {
    let limits = row.limits()?;
    let vars = variables_of(alloc, row)?;
    let pattern = pattern_of(alloc, row)?;
    let fits = some_fits(
        alloc,
        pattern.alternatives.as_slice(),
        stack,
        &vars,
        &limits,
    );
    drop(pattern);
    Ok(fits?)
}

pub fn tell_priorities(alloc: Global, row: &Row, out: &mut String) -> Result<(), Trouble> {
    let pattern = pattern_of(alloc, row)?;
    let told = tell_each(pattern.alternatives.as_slice(), out);
    drop(pattern);
    told
}

/// The priority of each alternative, parted by bars.
fn tell_each(alternatives: &[Alternative], out: &mut String) -> Result<(), Trouble> {
    for alternative in alternatives {
        if !out.is_empty() {
            out.push_str(" | ")?;
        }
        write!(out, "{}", default_priority(alternative))?;
    }
    Ok(())
}
