//! The variables that expressions, patterns and templates name.

ghost use Rattle.std.specs.Prelude.{◌≡◌, ◌++◌, map, OnOk};
ghost use Rattle.std.specs.List.{flat_map};
ghost use Rattle.sheet_model.specs.Names.{pattern_variables, template_variables, variables};
ghost use Rattle.sheet_loader.specs.Keys.{name_of};
ghost use Rattle.sheet_loader.specs.Making.{bare};
ghost use Rattle.stxpath_syntax.specs.declared.expr.PathStep.{PathStep};

use crate::names::Expanded;
use std::alloc::Global;
use stx_base::{List, Memory};
use stxpath_syntax::{Alternative, Avt, AvtPart, Expr, PathStep, Pattern};

/// Appends the variables that an expression names, those of predicates too.
#[tactic(auto, using(crate::proofs::VariableLemmas::variables_forms, std::proofs::lemmas::Grind::common_steps))]
#[cycle(variables)]
pub fn add_variables(alloc: Global, expr: &Expr, found: &mut List<Expanded>) -> Result<(), Memory>
    ensures { OnOk result (map name_of found.new ≡ map name_of found.old ++ map bare (variables expr.now)) }
{
    match expr {
        Expr::Var(name) => found.push(Expanded::of(alloc, name)?),
        Expr::Call(_, arguments) => add_of_all(alloc, arguments, found),
        Expr::Seq(parts) => add_of_all(alloc, parts, found),
        Expr::Neg(operand) => add_variables(alloc, operand.get(), found),
        Expr::Binary(_, left, right) => {
            add_variables(alloc, left.get(), found)?;
            add_variables(alloc, right.get(), found)
        }
        Expr::Abs(steps, _) => add_of_steps(alloc, steps, found),
        Expr::Whole(_) | Expr::Literal(_) | Expr::Root | Expr::Up(_, _) | Expr::Attr(_) => Ok(()),
    }
}

#[cycle(variables)]
fn add_of_all(alloc: Global, exprs: &List<Expr>, found: &mut List<Expanded>) -> Result<(), Memory>
    ensures { OnOk result (map name_of found.new ≡ map name_of found.old ++ map bare (flat_map variables exprs.now)) }
{
    for expr in exprs.as_slice() {
        add_variables(alloc, expr, found)?;
    }
    Ok(())
}

#[cycle(variables)]
fn add_of_steps(
    alloc: Global,
    steps: &List<PathStep>,
    found: &mut List<Expanded>,
) -> Result<(), Memory>
    ensures { OnOk result (map name_of found.new ≡ map name_of found.old ++ map bare (flat_map (λ (s : PathStep). flat_map variables s.predicates) steps.now)) }
{
    for step in steps.as_slice() {
        add_of_all(alloc, &step.predicates, found)?;
    }
    Ok(())
}

/// Appends the variables that the predicates of a pattern name.
pub fn add_of_pattern(
    alloc: Global,
    pattern: &Pattern,
    found: &mut List<Expanded>,
) -> Result<(), Memory>
    ensures { OnOk result (map name_of found.new ≡ map name_of found.old ++ map bare (pattern_variables pattern.now)) }
{
    for alternative in pattern.alternatives.as_slice() {
        if let Alternative::Steps(steps) = alternative {
            add_of_steps(alloc, steps, found)?;
        }
    }
    Ok(())
}

/// Appends the variables that the expressions of a template name.
pub fn add_of_template(
    alloc: Global,
    template: &Avt,
    found: &mut List<Expanded>,
) -> Result<(), Memory>
    ensures { OnOk result (map name_of found.new ≡ map name_of found.old ++ map bare (template_variables template.now)) }
{
    for part in template.parts.as_slice() {
        if let AvtPart::Value(expr) = part {
            add_variables(alloc, expr, found)?;
        }
    }
    Ok(())
}
