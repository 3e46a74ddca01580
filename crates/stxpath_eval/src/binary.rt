//! Operators on values.

ghost use Rattle.std.specs.Prelude.{◌≡◌};
ghost use Rattle.node_stack.specs.Stack.{path};
ghost use Rattle.stxpath_eval.specs.Held.{held_items, IsHeld};
ghost use Rattle.stxpath_eval.specs.Nodes.{atoms};
ghost use Rattle.stxpath_eval.specs.Value as spec;

use crate::held::{Held, held_truth, into_atoms};
use crate::values::{one, truth_item};
use node_stack::NodeStack;
use std::alloc::Global;
use stx_base::{Cmp, Op};
use stxpath_syntax::Bin;
use stxpath_values::{AtomRef, Atoms, EvalFault, EvalStop, arith_lent, compare_lent};

/// The truth of the left operand of `or` and `and`, where it decides.
pub(crate) fn decided(bin: Bin, left: &Held<'_>) -> Result<Option<bool>, EvalFault>
    ensures { result ≡ spec.decided bin (held_items left.now) }
{
    match bin {
        Bin::Or => {
            let is_true = held_truth(left)?;
            Ok(if is_true { Some(true) } else { None })
        }
        Bin::And => {
            let is_true = held_truth(left)?;
            Ok(if is_true { None } else { Some(false) })
        }
        Bin::Compare(_) | Bin::Arith(_) => Ok(None),
    }
}

/// What an operator gives of both operands, where the left one doesn't decide.
pub(crate) fn operated<'a>(
    alloc: Global,
    bin: Bin,
    left: Held<'a>,
    right: Held<'a>,
    stack: &'a NodeStack,
) -> Result<Held<'a>, EvalStop>
    ensures { IsHeld result (spec.operated (path stack.now) bin (held_items left.entry) (held_items right.entry)) }
{
    match bin {
        Bin::Or | Bin::And => {
            let is_true = held_truth(&right)?;
            Ok(truth_item(is_true))
        }
        Bin::Compare(cmp) => compared(alloc, cmp, left, right, stack),
        Bin::Arith(op) => computed(alloc, op, left, right, stack),
    }
}

fn compared<'a>(
    alloc: Global,
    cmp: Cmp,
    left: Held<'a>,
    right: Held<'a>,
    stack: &'a NodeStack,
) -> Result<Held<'a>, EvalStop>
    ensures { IsHeld result (spec.compared cmp (atoms (path stack.now) (held_items left.entry)) (atoms (path stack.now) (held_items right.entry))) }
{
    let left = into_atoms(alloc, left, stack)?;
    let right = into_atoms(alloc, right, stack)?;
    let holds = compare_lent(cmp, left.lent(), right.lent())?;
    Ok(truth_item(holds))
}

fn computed<'a>(
    alloc: Global,
    op: Op,
    left: Held<'a>,
    right: Held<'a>,
    stack: &'a NodeStack,
) -> Result<Held<'a>, EvalStop>
    ensures { IsHeld result (spec.computed op (atoms (path stack.now) (held_items left.entry)) (atoms (path stack.now) (held_items right.entry))) }
{
    let left = into_atoms(alloc, left, stack)?;
    let right = into_atoms(alloc, right, stack)?;
    let number = arith_lent(op, left.lent(), right.lent())?;
    Ok(one(AtomRef::Whole(number)))
}

/// A value taken from 0.
pub(crate) fn negated<'a>(
    alloc: Global,
    held: Held<'a>,
    stack: &'a NodeStack,
) -> Result<Held<'a>, EvalStop>
    ensures { IsHeld result (spec.negated (atoms (path stack.now) (held_items held.entry))) }
{
    let atoms = into_atoms(alloc, held, stack)?;
    let zero = Atoms::One(AtomRef::Whole(0));
    let number = arith_lent(Op::Sub, zero, atoms.lent())?;
    Ok(one(AtomRef::Whole(number)))
}
