//! Attribute value templates: plain characters with expressions in braces.

ghost use Rattle.std.specs.Prelude.{◌≡◌, ◌==◌, ◌<◌, ◌≤◌, ◌+◌, ◌^◌, ◌++◌, ◌∷◌, [], true, OnOk, IfOk, IfSome, None as Nothing, drop, length, map};
ghost use Rattle.std.specs.List.{list_all};
ghost use Rattle.stxpath_syntax.specs.Shape as shape;
ghost use Rattle.stxpath_syntax.specs.Template as spec;
ghost use Rattle.stxpath_syntax.specs.Templating as templating;
ghost use Rattle.stxpath_syntax.specs.Tokens.{has_at};

use crate::dialect::Dialect;
use crate::expr::{Avt, AvtPart, Expr};
use crate::fault::{ParseFault, PathFault, PathKind};
use crate::parse::expression;
use crate::stop::instead;
use std::alloc::Global;
use stx_base::{Binding, List, Memory, Text};

/// What stands at the front of a template.
#[derive(Drop)]
enum Piece {
    Plain(char),
    Value(Expr),
}

/// A piece with its length.
#[derive(Drop)]
struct Cut {
    piece: Piece,
    len: usize,
}

fn syntax(place: usize) -> ParseFault
    ensures { result ≡ ParseFault.Path (record { kind = PathKind.Syntax; place = place }) }
{
    ParseFault::Path(PathFault {
        kind: PathKind::Syntax,
        place,
    })
}

/// The place of the first `}` outside quotes.
fn closing(text: &[char]) -> Option<usize>
    ensures value { result ≡ spec.closing Nothing text.now }
    ensures within { IfSome result (λ n. n < length text.now) }
{
    let mut quote = None;
    for (place, c) in text.iter().enumerate() {
        match quote {
            None if *c == '}' => return Some(place),
            None if *c == '"' || *c == '\'' => quote = Some(*c),
            Some(open) if *c == open => quote = None,
            _ => {}
        }
    }
    None
}

fn follows(c: char, place: usize, text: &[char]) -> bool
    ensures { result ≡ has_at (λ x. x == c) place text.now }
{
    match text.get(place) {
        None => false,
        Some(found) => *found == c,
    }
}

fn is_brace(c: char) -> bool
    ensures { result ≡ spec.is_brace c }
{
    c == '{' || c == '}'
}

/// Takes the piece that begins with a brace at a place.
fn braced(
    alloc: Global,
    c: char,
    rest: &[char],
    at: usize,
    scope: &List<Binding>,
    dialect: Dialect,
) -> Result<Cut, ParseFault>
    requires brace { spec.is_brace c ≡ true }
    requires room { at + length rest.now + 1 < 2 ^ 64 }
    ensures { templating.Cuts dialect scope.now at (c ∷ rest.now) result }
{
    if follows(c, 0, rest) {
        let piece = Piece::Plain(c);
        return Ok(Cut { piece, len: 2 });
    }
    if c == '}' {
        return Err(syntax(at));
    }
    let Some(len) = closing(rest) else {
        return Err(syntax(at));
    };
    let value = expression(alloc, &rest[..len], at + 1, scope, dialect)?;
    let piece = Piece::Value(value);
    Ok(Cut {
        piece,
        len: len + 2,
    })
}

/// Takes the piece at the front of a template: its first character stands at a place, and the rest behind it.
fn front(
    alloc: Global,
    c: char,
    rest: &[char],
    at: usize,
    scope: &List<Binding>,
    dialect: Dialect,
) -> Result<Cut, ParseFault>
    requires { at + length rest.now + 1 < 2 ^ 64 }
    ensures { templating.Cuts dialect scope.now at (c ∷ rest.now) result }
{
    if is_brace(c) {
        return braced(alloc, c, rest, at, scope, dialect);
    }
    let piece = Piece::Plain(c);
    Ok(Cut { piece, len: 1 })
}

/// Ends the run of plain characters, if there are some.
fn flush(alloc: Global, parts: &mut List<AvtPart>, plain: &mut Text) -> Result<(), Memory>
    ensures parts { OnOk result (parts.new ≡ parts.old ++ templating.flushed plain.old) }
    ensures plain { OnOk result (plain.new ≡ []) }
{
    if plain.is_empty() {
        return Ok(());
    }
    let chars = std::mem::replace(plain, Text::new(alloc));
    parts.push(AvtPart::Chars(chars))
}

/// Appends an expression behind plain characters.
fn append_value(
    alloc: Global,
    parts: &mut List<AvtPart>,
    plain: &mut Text,
    value: Expr,
) -> Result<(), Memory>
    ensures parts { OnOk result (parts.new ≡ parts.old ++ templating.flushed plain.old ++ AvtPart.Value value ∷ []) }
    ensures plain { OnOk result (plain.new ≡ []) }
{
    match flush(alloc, parts, plain) {
        Ok(()) => parts.push(AvtPart::Value(value)),
        Err(memory) => instead(value, Err(memory)),
    }
}

/// Appends a piece to the parts and the plain characters behind them.
fn append(
    alloc: Global,
    parts: &mut List<AvtPart>,
    plain: &mut Text,
    piece: Piece,
) -> Result<(), Memory>
    ensures { OnOk result (templating.Appended parts.old plain.old piece parts.new plain.new) }
{
    match piece {
        Piece::Plain(c) => plain.push(c),
        Piece::Value(value) => append_value(alloc, parts, plain, value),
    }
}

/// All but so many characters.
fn skip(text: &[char], len: usize) -> &[char]
    requires { len ≤ length text.now }
    ensures { result.now ≡ drop len text.now }
{
    &text[len..]
}

/// The parts of the template that characters write.
fn parts(
    alloc: Global,
    text: &[char],
    scope: &List<Binding>,
    dialect: Dialect,
) -> Result<List<AvtPart>, ParseFault>
    requires { length text.now < 2 ^ 64 }
    ensures { spec.Answers (spec.IsTemplate dialect scope.now text.now) result }
{
    let mut parts = List::new(alloc);
    let mut plain = Text::new(alloc);
    let mut at = 0;
    let mut rest = text;
    'parts: while let Some((c, behind)) = rest.split_first() {
        let cut = front(alloc, *c, behind, at, scope, dialect)?;
        append(alloc, &mut parts, &mut plain, cut.piece)?;
        at += cut.len;
        rest = skip(rest, cut.len);
    }
    flush(alloc, &mut parts, &mut plain)?;
    Ok(parts)
}

/// Reads an attribute value template of a dialect; the fault is the first one.
pub fn read_avt(
    alloc: Global,
    text: &Text,
    scope: &List<Binding>,
    dialect: Dialect,
) -> Result<Avt, ParseFault>
    ensures reads { spec.Answers (spec.IsTemplate dialect scope.now text.now) (spec.parts_of result) }
    ensures called_well { IfOk result (λ template. list_all shape.is_part_called_well template.parts ≡ true) }
    ensures low { IfOk result (λ template. shape.greatest (map shape.part_height template.parts) ≤ 64) }
{
    let chars: Vec<char> = text.as_str().chars().collect(alloc)?;
    let parts = parts(alloc, &chars, scope, dialect)?;
    Ok(Avt { parts })
}

/// Reads an attribute value template of version 1.0.
pub fn parse_avt(alloc: Global, text: &Text, scope: &List<Binding>) -> Result<Avt, ParseFault>
    ensures reads { spec.Answers (spec.IsTemplate Dialect.One scope.now text.now) (spec.parts_of result) }
    ensures called_well { IfOk result (λ template. list_all shape.is_part_called_well template.parts ≡ true) }
    ensures low { IfOk result (λ template. shape.greatest (map shape.part_height template.parts) ≤ 64) }
{
    read_avt(alloc, text, scope, Dialect::One)
}
