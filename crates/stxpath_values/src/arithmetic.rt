ghost use Rattle.std.specs.Prelude.{◌≡◌};
ghost use Rattle.std.specs.Result.{result_map_both};
ghost use Rattle.stxpath_values.specs.Outcome.{stopped};
ghost use Rattle.stxpath_values.specs.declared.value.Atom.TheVariants.{Whole};
ghost use Rattle.stxpath_values.specs.Arithmetic.{arithmetic, computed};
ghost use Rattle.stxpath_values.specs.Lent.{atoms_of};

use crate::convert::whole_of;
use crate::fault::{EvalFault, EvalStop};
use crate::lent::Atoms;
use crate::value::Atom;
use stx_base::{List, Op};

/// What an operator gives of two lists as whole numbers, the left one converted first. `ZeroDivisor` and `Overflow` are
/// asked after both conversions. Allocates nothing.
pub fn arith(op: Op, left: &List<Atom>, right: &List<Atom>) -> Result<Atom, EvalStop>
    ensures { result ≡ stopped (arithmetic op left.now right.now) }
{
    let left = Atoms::List(left.as_slice());
    let right = Atoms::List(right.as_slice());
    let number = arith_lent(op, left, right)?;
    Ok(Atom::Whole(number))
}

/// As `arith`, of atoms that are lent; the number itself. Allocates nothing.
pub fn arith_lent(op: Op, left: Atoms<'_>, right: Atoms<'_>) -> Result<i64, EvalFault>
    ensures { result_map_both Whole (λ fault. fault) result ≡ arithmetic op (atoms_of left.entry) (atoms_of right.entry) }
{
    let left = whole_of(left)?;
    let right = whole_of(right)?;
    compute(op, left, right)
}

fn compute(op: Op, left: i64, right: i64) -> Result<i64, EvalFault>
    ensures { result ≡ computed op left right }
{
    match op {
        Op::Add => left.checked_add(right).ok_or(EvalFault::Overflow),
        Op::Sub => left.checked_sub(right).ok_or(EvalFault::Overflow),
        Op::Mul => left.checked_mul(right).ok_or(EvalFault::Overflow),
        Op::Idiv => divide(left, right),
        Op::Mod => remainder(left, right),
    }
}

fn divide(left: i64, right: i64) -> Result<i64, EvalFault>
    ensures { result ≡ computed Op.Idiv left right }
{
    if right == 0 {
        return Err(EvalFault::ZeroDivisor);
    }
    left.checked_div(right).ok_or(EvalFault::Overflow)
}

/// The remainder of the least number by -1 is 0, though the quotient doesn't fit.
fn remainder(left: i64, right: i64) -> Result<i64, EvalFault>
    ensures { result ≡ computed Op.Mod left right }
{
    if right == 0 {
        return Err(EvalFault::ZeroDivisor);
    }
    Ok(left.wrapping_rem(right))
}
