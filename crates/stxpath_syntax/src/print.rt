//! Expressions as texts that read back as the same expressions.

ghost use Rattle.std.specs.Prelude.{◌≡◌, ◌∷◌, ◌++◌, [], ◌==◌, OnOk, IfOk, codes, map};
ghost use Rattle.std.specs.Fmt.{signed_decimal};
ghost use Rattle.std.specs.List.{concat, list_any, repeat};
ghost use Rattle.std.specs.Str.{chars};
ghost use Rattle.stxpath_syntax.specs.Printing as spec;

use crate::expr::{Bin, Expr, Link, PathStep};
use crate::functions::word_of;
use itoa::Buffer;
use std::alloc::Global;
use stx_base::{Cmp, List, Memory, Name, NodeTest, Op, Text};

/// Prints an expression: one space round operators with two operands, `, ` between arguments, texts in `"`, or in `'`
/// where they hold `"`, and parentheses round each operand that is an operation or the document node.
///
/// It recurses as deep as the expression is high, and one that was read is at most 64 high.
pub fn print_expr(alloc: Global, expr: &Expr) -> Result<Text, Memory>
    ensures { IfOk result (λ text. text ≡ (spec.printed expr.now).text) }
{
    let mut text = Text::new(alloc);
    put_expr(&mut text, expr)?;
    Ok(text)
}

#[tactic(auto, using(crate::proofs::Printing::printed_forms, std::proofs::lemmas::Grind::common_steps))]
#[cycle(print)]
fn put_expr(text: &mut Text, expr: &Expr) -> Result<(), Memory>
    ensures { OnOk result (text.new ≡ text.old ++ (spec.printed expr.now).text) }
{
    match expr {
        Expr::Whole(value) => put_whole(text, *value),
        Expr::Literal(literal) => put_literal(text, literal),
        Expr::Var(name) => put_variable(text, name),
        Expr::Call(fun, arguments) => {
            text.push_str(word_of(*fun))?;
            put_items(text, arguments)
        }
        Expr::Seq(items) => put_items(text, items),
        Expr::Neg(operand) => {
            text.push('-')?;
            put_operand(text, operand.get())
        }
        Expr::Binary(bin, left, right) => {
            put_operand(text, left.get())?;
            put_sign(text, *bin)?;
            put_operand(text, right.get())
        }
        Expr::Root => text.push('/'),
        Expr::Abs(steps, test) => {
            put_steps(text, steps)?;
            put_ending(text, test)
        }
        Expr::Up(count, test) => {
            put_parents(text, *count)?;
            put_ending(text, test)
        }
        Expr::Attr(test) => put_test(text, test),
    }
}

#[tactic(auto, using(crate::proofs::Printing::printed_forms))]
fn is_loose(expr: &Expr) -> bool
    ensures { result ≡ (spec.printed expr.now).is_loose }
{
    match expr {
        Expr::Neg(_) => true,
        Expr::Binary(..) => true,
        Expr::Root => true,
        Expr::Whole(_) => false,
        Expr::Literal(_) => false,
        Expr::Var(_) => false,
        Expr::Call(..) => false,
        Expr::Seq(_) => false,
        Expr::Abs(..) => false,
        Expr::Up(..) => false,
        Expr::Attr(_) => false,
    }
}

/// An operand, in parentheses where it needs them.
#[cycle(print)]
fn put_operand(text: &mut Text, operand: &Expr) -> Result<(), Memory>
    ensures { OnOk result (text.new ≡ text.old ++ spec.operand (spec.printed operand.now)) }
{
    if is_loose(operand) {
        text.push('(')?;
        put_expr(text, operand)?;
        text.push(')')
    } else {
        put_expr(text, operand)
    }
}

/// Expressions in parentheses, with a comma and a space between.
#[tactic(auto, using(crate::proofs::Printing::left_all, crate::proofs::Printing::left_end, crate::proofs::Printing::left_more, std::proofs::lemmas::Grind::common_steps))]
#[cycle(print)]
fn put_items(text: &mut Text, list: &List<Expr>) -> Result<(), Memory>
    ensures { OnOk result (text.new ≡ text.old ++ spec.in_parentheses (spec.listed (map spec.printed list.now))) }
{
    text.push('(')?;
    let items = list.as_slice();
    for (index, item) in items.iter().enumerate() {
        put_comma(text, index)?;
        put_expr(text, item)?;
    }
    text.push(')')
}

/// What stands before the item at an index.
fn put_comma(text: &mut Text, index: usize) -> Result<(), Memory>
    ensures { OnOk result (text.new ≡ text.old ++ spec.comma_before index) }
{
    if index == 0 {
        return Ok(());
    }
    text.push(',')?;
    text.push(' ')
}

#[tactic(auto, using(std::proofs::lemmas::Grind::common_steps))]
#[cycle(print)]
fn put_steps(text: &mut Text, list: &List<PathStep>) -> Result<(), Memory>
    ensures { OnOk result (text.new ≡ text.old ++ concat (map spec.step_text list.now)) }
{
    let steps = list.as_slice();
    for step in steps {
        put_step(text, step)?;
    }
    Ok(())
}

#[tactic(auto, using(crate::proofs::Printing::printed_out, std::proofs::lemmas::Grind::common_steps))]
#[cycle(print)]
fn put_step(text: &mut Text, step: &PathStep) -> Result<(), Memory>
    ensures { OnOk result (text.new ≡ text.old ++ spec.step_text step.now) }
{
    text.push_str(link_text(step.link))?;
    put_test(text, &step.test)?;
    put_predicates(text, &step.predicates)
}

#[tactic(auto, using(std::proofs::lemmas::Grind::common_steps))]
#[cycle(print)]
fn put_predicates(text: &mut Text, list: &List<Expr>) -> Result<(), Memory>
    ensures { OnOk result (text.new ≡ text.old ++ spec.predicates (map spec.printed list.now)) }
{
    let predicates = list.as_slice();
    for predicate in predicates {
        text.push('[')?;
        put_expr(text, predicate)?;
        text.push(']')?;
    }
    Ok(())
}

fn digits(value: i64, buffer: &mut Buffer) -> &str
    ensures { chars result.now ≡ signed_decimal value }
{
    buffer.format(value)
}

fn put_whole(text: &mut Text, value: i64) -> Result<(), Memory>
    ensures { OnOk result (text.new ≡ text.old ++ signed_decimal value) }
{
    let mut buffer = Buffer::new();
    text.push_str(digits(value, &mut buffer))
}

fn holds_quote(text: &str) -> bool
    ensures { result ≡ list_any (λ c. c == 34) (chars text.now) }
{
    text.chars().any(|c| c == '"')
}

fn quote_for(text: &Text) -> char
    ensures { result ≡ spec.quote_for text.now }
{
    if holds_quote(text.as_str()) {
        '\''
    } else {
        '"'
    }
}

fn put_literal(text: &mut Text, literal: &Text) -> Result<(), Memory>
    ensures { OnOk result (text.new ≡ text.old ++ spec.quoted literal.now) }
{
    let quote = quote_for(literal);
    text.push(quote)?;
    text.push_str(literal.as_str())?;
    text.push(quote)
}

/// The prefix and a colon, where there is a prefix.
fn put_prefix(text: &mut Text, prefix: &Text) -> Result<(), Memory>
    ensures { OnOk result (text.new ≡ text.old ++ spec.prefixed prefix.now []) }
{
    if prefix.is_empty() {
        return Ok(());
    }
    text.push_str(prefix.as_str())?;
    text.push(':')
}

fn put_name(text: &mut Text, name: &Name) -> Result<(), Memory>
    ensures { OnOk result (text.new ≡ text.old ++ spec.name_text name.now) }
{
    put_prefix(text, &name.prefix)?;
    text.push_str(name.local.as_str())
}

fn put_variable(text: &mut Text, name: &Name) -> Result<(), Memory>
    ensures { OnOk result (text.new ≡ text.old ++ 36 ∷ spec.name_text name.now) }
{
    text.push('$')?;
    put_name(text, name)
}

#[tactic(auto, using(crate::proofs::Printing::repeat_push, std::proofs::lemmas::Grind::common_steps))]
fn put_times(text: &mut Text, piece: &str, count: u64) -> Result<(), Memory>
    ensures { OnOk result (text.new ≡ text.old ++ repeat count (chars piece.now)) }
{
    for _ in 0..count {
        text.push_str(piece)?;
    }
    Ok(())
}

/// `.`, or `..` so many times.
#[tactic(auto, using(std::proofs::lemmas::Grind::common_steps))]
fn put_parents(text: &mut Text, count: u64) -> Result<(), Memory>
    ensures { OnOk result (text.new ≡ text.old ++ spec.parents_text count) }
{
    if count == 0 {
        return text.push('.');
    }
    text.push_str("..")?;
    put_times(text, "/..", count - 1)
}

/// The test of attributes at the end of a path.
fn put_ending(text: &mut Text, test: &Option<NodeTest>) -> Result<(), Memory>
    ensures { OnOk result (text.new ≡ text.old ++ spec.ending_text test.now) }
{
    match test {
        None => Ok(()),
        Some(test) => {
            text.push('/')?;
            put_test(text, test)
        }
    }
}

#[tactic(auto, using(std::proofs::lemmas::Grind::common_steps))]
fn put_test(text: &mut Text, test: &NodeTest) -> Result<(), Memory>
    ensures { OnOk result (text.new ≡ text.old ++ spec.test_text test.now) }
{
    match test {
        NodeTest::Document => text.push('/'),
        NodeTest::Name(name) => put_name(text, name),
        NodeTest::Prefix(binding) => put_within(text, &binding.prefix),
        NodeTest::AnyElement => text.push('*'),
        NodeTest::AnyNode => text.push_str("node()"),
        NodeTest::Chars => text.push_str("text()"),
        NodeTest::CData => text.push_str("cdata()"),
        NodeTest::Comment => text.push_str("comment()"),
        NodeTest::AnyPi => text.push_str("processing-instruction()"),
        NodeTest::Pi(target) => put_target(text, target),
        NodeTest::AttrName(name) => {
            text.push('@')?;
            put_name(text, name)
        }
        NodeTest::AttrPrefix(binding) => {
            text.push('@')?;
            put_within(text, &binding.prefix)
        }
        NodeTest::AnyAttr => text.push_str("@*"),
    }
}

#[tactic(auto, using(std::proofs::lemmas::Grind::common_steps))]
fn put_target(text: &mut Text, target: &Text) -> Result<(), Memory>
    ensures { OnOk result (text.new ≡ text.old ++ (codes "processing-instruction(" ++ spec.quoted target.now ++ codes ")")) }
{
    text.push_str("processing-instruction(")?;
    put_literal(text, target)?;
    text.push(')')
}

fn put_within(text: &mut Text, prefix: &Text) -> Result<(), Memory>
    ensures { OnOk result (text.new ≡ text.old ++ spec.within_text prefix.now) }
{
    put_prefix(text, prefix)?;
    text.push('*')
}

#[tactic(auto)]
fn link_text(link: Link) -> &'static str
    ensures { chars result.now ≡ spec.link_text link }
{
    match link {
        Link::Start => "",
        Link::Slash => "/",
        Link::Deep => "//",
    }
}

#[tactic(auto)]
fn comparison_sign(cmp: Cmp) -> &'static str
    ensures { chars result.now ≡ spec.comparison_sign cmp }
{
    match cmp {
        Cmp::Eq => "=",
        Cmp::Ne => "!=",
        Cmp::Lt => "<",
        Cmp::Le => "<=",
        Cmp::Gt => ">",
        Cmp::Ge => ">=",
    }
}

#[tactic(auto)]
fn arithmetic_sign(op: Op) -> &'static str
    ensures { chars result.now ≡ spec.arithmetic_sign op }
{
    match op {
        Op::Add => "+",
        Op::Sub => "-",
        Op::Mul => "*",
        Op::Idiv => "idiv",
        Op::Mod => "mod",
    }
}

#[tactic(auto)]
fn sign_of(bin: Bin) -> &'static str
    ensures { chars result.now ≡ spec.sign_of bin }
{
    match bin {
        Bin::Or => "or",
        Bin::And => "and",
        Bin::Compare(cmp) => comparison_sign(cmp),
        Bin::Arith(op) => arithmetic_sign(op),
    }
}

/// An operator between spaces.
fn put_sign(text: &mut Text, bin: Bin) -> Result<(), Memory>
    ensures { OnOk result (text.new ≡ text.old ++ 32 ∷ (spec.sign_of bin ++ 32 ∷ [])) }
{
    text.push(' ')?;
    text.push_str(sign_of(bin))?;
    text.push(' ')
}
