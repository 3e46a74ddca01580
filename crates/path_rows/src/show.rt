//! Trees as the rows write them. What is still to be written waits on a stack, the next on top.

use rows::{Trouble, tell_name};
use std::alloc::Global;
use std::fmt::Write;
use stx_base::{Binding, Name, NodeTest, Text};
use stxpath_syntax::{Alternative, Avt, AvtPart, Bin, Expr, Link, PathStep, Pattern};

#[derive(Clone, Copy)]
enum Work<'a> {
    Word(&'static str),
    Expr(&'a Expr),
    Step(&'a PathStep),
    Test(&'a NodeTest),
}

use self::Work::{Step, Test, Word};

/// More than any row has to write.
const MOST: u32 = 1_000_000;

pub fn shown_expr(alloc: Global, expr: &Expr) -> Result<String, Trouble> {
    let mut out = String::new(alloc);
    let mut work = Vec::new(alloc);
    work.push(Work::Expr(expr))?;
    run(&mut work, &mut out)?;
    Ok(out)
}

pub fn shown_pattern(alloc: Global, pattern: &Pattern) -> Result<String, Trouble> {
    let mut out = String::new(alloc);
    let mut work = Vec::new(alloc);
    for alternative in pattern.alternatives.as_slice() {
        if !out.is_empty() {
            out.push_str(" | ")?;
        }
        match alternative {
            Alternative::Root => out.push_str("Root")?,
            Alternative::Steps(steps) => push_steps(steps.as_slice(), &mut work)?,
        }
        run(&mut work, &mut out)?;
    }
    Ok(out)
}

/// Characters in quotes and expressions in braces.
pub fn shown_avt(alloc: Global, avt: &Avt) -> Result<String, Trouble> {
    let mut out = String::new(alloc);
    let mut work = Vec::new(alloc);
    for part in avt.parts.as_slice() {
        if !out.is_empty() {
            out.push(' ')?;
        }
        match part {
            AvtPart::Chars(text) => show_chars(text, &mut out)?,
            AvtPart::Value(expr) => push_value(expr, &mut work)?,
        }
        run(&mut work, &mut out)?;
    }
    Ok(out)
}

fn push_value<'a>(expr: &'a Expr, work: &mut Vec<Work<'a>>) -> Result<(), Trouble> {
    work.push(Word("}"))?;
    work.push(Work::Expr(expr))?;
    Ok(work.push(Word("{"))?)
}

fn run(work: &mut Vec<Work<'_>>, out: &mut String) -> Result<(), Trouble> {
    for _ in 0..MOST {
        match work.pop() {
            None => return Ok(()),
            Some(Word(word)) => out.push_str(word)?,
            Some(Work::Expr(expr)) => show(expr, work, out)?,
            Some(Step(step)) => show_step(step, work, out)?,
            Some(Test(test)) => show_test(test, out)?,
        }
    }
    out.push_str(" and so on")?;
    Ok(())
}

fn show<'a>(expr: &'a Expr, work: &mut Vec<Work<'a>>, out: &mut String) -> Result<(), Trouble> {
    match expr {
        Expr::Whole(n) => Ok(write!(out, "{n}")?),
        Expr::Literal(text) => show_chars(text, out),
        Expr::Var(name) => show_variable(name, out),
        Expr::Call(fun, args) => {
            write!(out, "({fun:?}")?;
            push_operands(args.as_slice(), work)
        }
        Expr::Seq(items) => {
            out.push_str("(Seq")?;
            push_operands(items.as_slice(), work)
        }
        Expr::Neg(inner) => {
            out.push_str("(Neg ")?;
            push_last(inner.get(), work)
        }
        Expr::Binary(bin, left, right) => {
            show_operator(*bin, out)?;
            push_both(left.get(), right.get(), work)
        }
        Expr::Root => Ok(out.push_str("Root")?),
        Expr::Abs(steps, test) => {
            out.push_str("(Abs ")?;
            push_ending(test, work)?;
            push_steps(steps.as_slice(), work)
        }
        Expr::Up(count, test) => {
            write!(out, "(Up {count}")?;
            push_ending(test, work)
        }
        Expr::Attr(test) => show_test(test, out),
    }
}

fn show_chars(text: &Text, out: &mut String) -> Result<(), Trouble> {
    Ok(write!(out, "'{}'", text.as_str())?)
}

fn show_variable(name: &Name, out: &mut String) -> Result<(), Trouble> {
    out.push('$')?;
    tell_name(name, out)
}

fn show_operator(bin: Bin, out: &mut String) -> Result<(), Trouble> {
    match bin {
        Bin::Or => Ok(out.push_str("(Or ")?),
        Bin::And => Ok(out.push_str("(And ")?),
        Bin::Compare(cmp) => Ok(write!(out, "({cmp:?} ")?),
        Bin::Arith(op) => Ok(write!(out, "({op:?} ")?),
    }
}

/// The last operand, and the bracket.
fn push_last<'a>(operand: &'a Expr, work: &mut Vec<Work<'a>>) -> Result<(), Trouble> {
    work.push(Word(")"))?;
    Ok(work.push(Work::Expr(operand))?)
}

fn push_both<'a>(left: &'a Expr, right: &'a Expr, work: &mut Vec<Work<'a>>) -> Result<(), Trouble> {
    push_last(right, work)?;
    work.push(Word(" "))?;
    Ok(work.push(Work::Expr(left))?)
}

fn push_operands<'a>(operands: &'a [Expr], work: &mut Vec<Work<'a>>) -> Result<(), Trouble> {
    work.push(Word(")"))?;
    for operand in operands.iter().rev() {
        work.push(Work::Expr(operand))?;
        work.push(Word(" "))?;
    }
    Ok(())
}

/// What stands behind the steps, and the bracket.
fn push_ending<'a>(ending: &'a Option<NodeTest>, work: &mut Vec<Work<'a>>) -> Result<(), Trouble> {
    work.push(Word(")"))?;
    match ending {
        Some(test) => {
            work.push(Test(test))?;
            Ok(work.push(Word(" "))?)
        }
        None => Ok(()),
    }
}

fn push_steps<'a>(steps: &'a [PathStep], work: &mut Vec<Work<'a>>) -> Result<(), Trouble> {
    for step in steps.iter().rev() {
        work.push(Step(step))?;
    }
    Ok(())
}

fn push_predicate<'a>(expr: &'a Expr, work: &mut Vec<Work<'a>>) -> Result<(), Trouble> {
    work.push(Word("]"))?;
    work.push(Work::Expr(expr))?;
    Ok(work.push(Word("["))?)
}

fn sign_of(link: Link) -> &'static str {
    match link {
        Link::Start => "",
        Link::Slash => "/",
        Link::Deep => "//",
    }
}

fn show_step<'a>(
    step: &'a PathStep,
    work: &mut Vec<Work<'a>>,
    out: &mut String,
) -> Result<(), Trouble> {
    out.push_str(sign_of(step.link))?;
    show_test(&step.test, out)?;
    for predicate in step.predicates.as_slice().iter().rev() {
        push_predicate(predicate, work)?;
    }
    Ok(())
}

fn show_test(test: &NodeTest, out: &mut String) -> Result<(), Trouble> {
    match test {
        NodeTest::Document => Ok(out.push_str("document")?),
        NodeTest::Name(name) => tell_name(name, out),
        NodeTest::Prefix(binding) => show_prefix(binding, out),
        NodeTest::AnyElement => Ok(out.push('*')?),
        NodeTest::AnyNode => Ok(out.push_str("node()")?),
        NodeTest::Chars => Ok(out.push_str("text()")?),
        NodeTest::CData => Ok(out.push_str("cdata()")?),
        NodeTest::Comment => Ok(out.push_str("comment()")?),
        NodeTest::AnyPi => Ok(out.push_str("pi()")?),
        NodeTest::Pi(target) => Ok(write!(out, "pi('{}')", target.as_str())?),
        NodeTest::AttrName(name) => {
            out.push('@')?;
            tell_name(name, out)
        }
        NodeTest::AttrPrefix(binding) => {
            out.push('@')?;
            show_prefix(binding, out)
        }
        NodeTest::AnyAttr => Ok(out.push_str("@*")?),
    }
}

/// `prefix{URI}*`
fn show_prefix(binding: &Binding, out: &mut String) -> Result<(), Trouble> {
    let prefix = binding.prefix.as_str();
    let uri = binding.uri.as_str();
    Ok(write!(out, "{prefix}{{{uri}}}*")?)
}
