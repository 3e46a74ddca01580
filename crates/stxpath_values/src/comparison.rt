ghost use Rattle.std.specs.Prelude.{◌≡◌, Some};
ghost use Rattle.std.specs.Ordering.{nat_cmp};
ghost use Rattle.std.specs.Cmp.Lexicographic.{slice_cmp};
ghost use Rattle.std.specs.Str.{chars};
ghost use Rattle.stxpath_values.specs.Outcome.{some_holds, stopped};
ghost use Rattle.stxpath_values.specs.Comparison as spec;
ghost use Rattle.stxpath_values.specs.Lent.{atom_of, atoms_of};
ghost use Rattle.stxpath_values.specs.Comparison.{comparison, order_of_number};

use crate::convert::atom_truth;
use crate::fault::{EvalFault, EvalStop};
use crate::lent::{AtomRef, Atoms};
use crate::numeral::text_number;
use crate::value::Atom;
use std::cmp::Ordering;
use stx_base::{Cmp, List};

/// Whether a comparison holds of some item on the left and some item on the right. The pairs are tried in order, the left
/// item outermost, until one holds or faults. Allocates nothing.
pub fn compare(cmp: Cmp, left: &List<Atom>, right: &List<Atom>) -> Result<bool, EvalStop>
    ensures { result ≡ stopped (comparison cmp left.now right.now) }
{
    let holds = compare_all(cmp, left.as_slice(), right.as_slice())?;
    Ok(holds)
}

/// As `compare`, of atoms that are lent. Allocates nothing.
pub fn compare_lent(cmp: Cmp, left: Atoms<'_>, right: Atoms<'_>) -> Result<bool, EvalFault>
    ensures { result ≡ comparison cmp (atoms_of left.entry) (atoms_of right.entry) }
{
    match left {
        Atoms::One(x) => compare_some(cmp, x, right),
        Atoms::List(left) => match right {
            Atoms::One(y) => compare_to(cmp, left, y),
            Atoms::List(right) => compare_all(cmp, left, right),
        },
    }
}

fn compare_all(cmp: Cmp, left: &[Atom], right: &[Atom]) -> Result<bool, EvalFault>
    ensures { result ≡ comparison cmp left.now right.now }
{
    for x in left {
        if compare_one(cmp, x.lent(), right)? {
            return Ok(true);
        }
    }
    Ok(false)
}

fn compare_to(cmp: Cmp, left: &[Atom], y: AtomRef<'_>) -> Result<bool, EvalFault>
    ensures { result ≡ some_holds (λ x. spec.pair_holds cmp x (atom_of y.entry)) left.now }
{
    for x in left {
        if pair_holds(cmp, x.lent(), y)? {
            return Ok(true);
        }
    }
    Ok(false)
}

fn compare_some(cmp: Cmp, x: AtomRef<'_>, right: Atoms<'_>) -> Result<bool, EvalFault>
    ensures { result ≡ some_holds (spec.pair_holds cmp (atom_of x.entry)) (atoms_of right.entry) }
{
    match right {
        Atoms::One(y) => pair_holds(cmp, x, y),
        Atoms::List(right) => compare_one(cmp, x, right),
    }
}

fn compare_one(cmp: Cmp, x: AtomRef<'_>, right: &[Atom]) -> Result<bool, EvalFault>
    ensures { result ≡ some_holds (spec.pair_holds cmp (atom_of x.entry)) right.now }
{
    for y in right {
        if pair_holds(cmp, x, y.lent())? {
            return Ok(true);
        }
    }
    Ok(false)
}

/// Whether a comparison holds of two atoms. Texts are what is compared most, and most of them for whether they are equal.
#[inline(always)]
pub fn pair_holds(cmp: Cmp, x: AtomRef<'_>, y: AtomRef<'_>) -> Result<bool, EvalFault>
    ensures { result ≡ spec.pair_holds cmp (atom_of x.entry) (atom_of y.entry) }
{
    match y {
        AtomRef::Chars(right) => match x {
            AtomRef::Chars(left) => Ok(texts_hold(cmp, left.as_str(), right.as_str())),
            AtomRef::Whole(_) | AtomRef::Truth(_) => any_pair_holds(cmp, x, y),
        },
        AtomRef::Whole(_) | AtomRef::Truth(_) => any_pair_holds(cmp, x, y),
    }
}

/// Whether a comparison holds of two texts: they are equal where their bytes are.
#[inline(always)]
fn texts_hold(cmp: Cmp, left: &str, right: &str) -> bool
    ensures { result ≡ spec.admits cmp (Some (slice_cmp nat_cmp (chars left.now) (chars right.now))) }
{
    match cmp {
        Cmp::Eq => left == right,
        Cmp::Ne => left != right,
        Cmp::Lt | Cmp::Le | Cmp::Gt | Cmp::Ge => admits(cmp, Some(order_of_texts(left, right))),
    }
}

/// Whether a comparison holds of two atoms, whatever they are.
#[inline(never)]
fn any_pair_holds(cmp: Cmp, x: AtomRef<'_>, y: AtomRef<'_>) -> Result<bool, EvalFault>
    ensures { result ≡ spec.pair_holds cmp (atom_of x.entry) (atom_of y.entry) }
{
    let order = order(x, y)?;
    Ok(admits(cmp, order))
}

/// How two atoms stand to each other; `None` where they are unequal and neither is less.
fn order(x: AtomRef<'_>, y: AtomRef<'_>) -> Result<Option<Ordering>, EvalFault>
    ensures { result ≡ spec.order (atom_of x.entry) (atom_of y.entry) }
{
    match x {
        AtomRef::Truth(a) => Ok(Some(a.cmp(&atom_truth(y)))),
        AtomRef::Whole(a) => match y {
            AtomRef::Truth(b) => Ok(Some(atom_truth(x).cmp(&b))),
            AtomRef::Whole(b) => Ok(Some(a.cmp(&b))),
            AtomRef::Chars(text) => {
                let order = order_of_number(a, text.as_str())?;
                Ok(order)
            }
        },
        AtomRef::Chars(text) => match y {
            AtomRef::Truth(b) => Ok(Some(atom_truth(x).cmp(&b))),
            AtomRef::Whole(b) => {
                let order = order_of_number(b, text.as_str())?;
                Ok(order.map(|o| o.reverse()))
            }
            AtomRef::Chars(other) => Ok(Some(order_of_texts(text.as_str(), other.as_str()))),
        },
    }
}

/// How a number stands to a text; `None` where that is no numeral.
fn order_of_number(number: i64, text: &str) -> Result<Option<Ordering>, EvalFault>
    ensures { result ≡ spec.order_of_number number (chars text.now) }
{
    match text_number(text)? {
        Some(n) => Ok(Some(number.cmp(&n))),
        None => Ok(None),
    }
}

/// By the numbers of the characters.
fn order_of_texts(left: &str, right: &str) -> Ordering
    ensures { result ≡ slice_cmp nat_cmp (chars left.now) (chars right.now) }
{
    left.chars().cmp(right.chars())
}

/// Which comparisons hold of two that stand so.
fn admits(cmp: Cmp, order: Option<Ordering>) -> bool
    ensures { result ≡ spec.admits cmp order }
{
    match order {
        None => matches!(cmp, Cmp::Ne),
        Some(order) => match cmp {
            Cmp::Eq => order.is_eq(),
            Cmp::Ne => order.is_ne(),
            Cmp::Lt => order.is_lt(),
            Cmp::Le => order.is_le(),
            Cmp::Gt => order.is_gt(),
            Cmp::Ge => order.is_ge(),
        },
    }
}
