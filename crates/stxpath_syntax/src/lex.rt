//! A text as tokens, each as long as possible.

ghost use Rattle.std.specs.Prelude.{◌≡◌, ◌≤◌, ◌<◌, ◌+◌, ◌*◌, ◌-◌, ◌^◌, ◌==◌, pos, nat_lt, true, false, None as Nothing, Some as Just, IfOk, IfSome, length, drop, take, slice_get, if◌then◌else◌};
ghost use Rattle.std.specs.Char.{digit_value, is_ascii_digit};
ghost use Rattle.std.specs.Option.{option_map};
ghost use Rattle.std.specs.List.{list_all, position_or_len, prefix_len};
ghost use Rattle.std.specs.Str.Parse.{digits_value};
ghost use Rattle.stx_base.specs.Character.{is_ncname_char, is_space};
ghost use Rattle.stxpath_syntax.specs.Lexing as lexing;
ghost use Rattle.stxpath_syntax.specs.Tokens as spec;
ghost use Rattle.stxpath_syntax.specs.Words as words;

use crate::expr::Bin;
use crate::fault::{ParseFault, PathFault, PathKind};
use crate::token::{Before, Operator, Placed, Token, Written};
use std::alloc::Global;
use stx_base::{Cmp, List, Memory, Op, Text, is_name_char, is_name_start, is_space};

/// The brackets that may be open at once.
const MAX_OPEN: usize = 64;

/// The last whole number.
const MAX_WHOLE: u64 = 9223372036854775807;

fn text_of(alloc: Global, chars: &[char]) -> Result<Text, Memory>
    ensures { IfOk result (λ text. text ≡ chars.now) }
{
    let mut text = Text::new(alloc);
    for c in chars {
        text.push(*c)?;
    }
    Ok(text)
}

fn space_len(text: &[char]) -> usize
    ensures value { result ≡ prefix_len is_space text.now }
    ensures bound { result ≤ length text.now }
{
    text.iter().take_while(|c| is_space(**c)).count()
}

fn digits_len(text: &[char]) -> usize
    ensures value { result ≡ prefix_len is_ascii_digit text.now }
    ensures bound { result ≤ length text.now }
{
    text.iter().take_while(|c| c.is_ascii_digit()).count()
}

fn name_len(text: &[char]) -> usize
    ensures value { result ≡ prefix_len is_ncname_char text.now }
    ensures bound { result ≤ length text.now }
{
    text.iter()
        .take_while(|c| is_name_char(**c) && **c != ':')
        .count()
}

/// How many characters stand before the first such quote.
fn quote_place(quote: char, text: &[char]) -> usize
    ensures value { result ≡ position_or_len (λ c. c == quote) text.now }
    ensures bound { result ≤ length text.now }
{
    text.iter().take_while(|c| **c != quote).count()
}

fn has(c: char, index: usize, text: &[char]) -> bool
    ensures { result ≡ spec.has_at (λ x. x == c) index text.now }
{
    match text.get(index) {
        None => false,
        Some(found) => *found == c,
    }
}

fn has_digit(index: usize, text: &[char]) -> bool
    ensures { result ≡ spec.has_at is_ascii_digit index text.now }
{
    match text.get(index) {
        None => false,
        Some(found) => found.is_ascii_digit(),
    }
}

fn begins_name(c: char) -> bool
    ensures { result ≡ spec.begins_name c }
{
    is_name_start(c) && c != ':'
}

fn has_name(index: usize, text: &[char]) -> bool
    ensures { result ≡ spec.has_at spec.begins_name index text.now }
{
    match text.get(index) {
        None => false,
        Some(found) => begins_name(*found),
    }
}

/// A number with one more digit behind it, where it fits.
fn with_digit(value: u64, digit: char) -> Option<u64>
    requires { is_ascii_digit digit ≡ true }
    ensures { result ≡ (if nat_lt (2 ^ 63 - 1) (value * 10 + digit_value digit) then Nothing else Just (value * 10 + digit_value digit)) }
{
    let units = u64::from(digit as u32 - '0' as u32);
    if value > (MAX_WHOLE - units) / 10 {
        return None;
    }
    Some(value * 10 + units)
}

/// The number that digits write, where it fits.
fn value_of(digits: &[char]) -> Option<u64>
    requires { list_all is_ascii_digit digits.now ≡ true }
    ensures { result ≡ (if nat_lt (2 ^ 63 - 1) (digits_value 10 digits.now) then Nothing else Just (digits_value 10 digits.now)) }
{
    let mut value: u64 = 0;
    for digit in digits {
        value = with_digit(value, *digit)?;
    }
    Some(value)
}

fn is_fraction(text: &[char]) -> bool
    ensures { result ≡ spec.is_fraction text.now }
{
    let n = digits_len(text);
    if n == 0 {
        has('.', 0, text) && has_digit(1, text)
    } else {
        has('.', n, text)
    }
}

/// How long the NCName at the front is, whose first character begins one.
fn first_len(text: &[char]) -> usize
    requires { 0 < length text.now }
    ensures value { result ≡ prefix_len is_ncname_char (drop 1 text.now) + 1 }
    ensures bound { (0 < result) × (result ≤ length text.now) }
{
    name_len(&text[1..]) + 1
}

/// The QName, NCName with `:*` or NCName at the front.
fn name(alloc: Global, text: &[char]) -> Result<(Token, usize), Memory>
    requires { 0 < length text.now }
    ensures { IfOk result (λ found. (found ≡ spec.name text.now) × (0 < found.1) × (found.1 ≤ length text.now)) }
{
    let n = first_len(text);
    let first = text_of(alloc, &text[..n])?;
    if !has(':', n, text) {
        let prefix = Text::new(alloc);
        return Ok((
            Token::Name(Written {
                prefix,
                local: first,
            }),
            n,
        ));
    }
    if has_name(n + 1, text) {
        let rest = &text[n + 1..];
        let m = name_len(rest);
        let local = text_of(alloc, &rest[..m])?;
        return Ok((
            Token::Name(Written {
                prefix: first,
                local,
            }),
            n + 1 + m,
        ));
    }
    if has('*', n + 1, text) {
        return Ok((Token::Within(first), n + 2));
    }
    let prefix = Text::new(alloc);
    Ok((
        Token::Name(Written {
            prefix,
            local: first,
        }),
        n,
    ))
}

fn compare(cmp: Cmp) -> Option<Token>
    ensures { result ≡ Just (Token.Operator (Operator.Binary (Bin.Compare cmp))) }
{
    Some(Token::Operator(Operator::Binary(Bin::Compare(cmp))))
}

fn arith(op: Op) -> Option<Token>
    ensures { result ≡ Just (Token.Operator (Operator.Binary (Bin.Arith op))) }
{
    Some(Token::Operator(Operator::Binary(Bin::Arith(op))))
}

/// The sign that two characters write.
fn double_sign(c: char, d: char) -> Option<Token>
    ensures { result ≡ spec.double_sign c d }
{
    if c == '/' && d == '/' {
        Some(Token::SlashSlash)
    } else if c == '.' && d == '.' {
        Some(Token::DotDot)
    } else if c == '!' && d == '=' {
        compare(Cmp::Ne)
    } else if c == '<' && d == '=' {
        compare(Cmp::Le)
    } else if c == '>' && d == '=' {
        compare(Cmp::Ge)
    } else {
        None
    }
}

/// The operator that a character writes.
fn operator_sign(c: char) -> Option<Token>
    ensures { result ≡ spec.operator_sign c }
{
    if c == '<' {
        compare(Cmp::Lt)
    } else if c == '>' {
        compare(Cmp::Gt)
    } else if c == '=' {
        compare(Cmp::Eq)
    } else if c == '+' {
        arith(Op::Add)
    } else if c == '-' {
        arith(Op::Sub)
    } else {
        None
    }
}

/// The other sign that a character writes.
fn plain_sign(c: char) -> Option<Token>
    ensures { result ≡ spec.plain_sign c }
{
    if c == '(' {
        Some(Token::Open)
    } else if c == ')' {
        Some(Token::Close)
    } else if c == '[' {
        Some(Token::OpenPredicate)
    } else if c == ']' {
        Some(Token::ClosePredicate)
    } else if c == '/' {
        Some(Token::Slash)
    } else if c == '.' {
        Some(Token::Dot)
    } else if c == '*' {
        Some(Token::Star)
    } else if c == ',' {
        Some(Token::Comma)
    } else if c == '@' {
        Some(Token::At)
    } else if c == '|' {
        Some(Token::Bar)
    } else if c == '$' {
        Some(Token::Dollar)
    } else {
        None
    }
}

fn single_sign(c: char) -> Option<Token>
    ensures { result ≡ spec.single_sign c }
{
    match operator_sign(c) {
        Some(token) => Some(token),
        None => plain_sign(c),
    }
}

fn with_length(len: usize, token: Option<Token>) -> Option<(Token, usize)>
    ensures { result ≡ option_map (spec.with_length len) token }
{
    match token {
        Some(token) => Some((token, len)),
        None => None,
    }
}

/// The sign at the front, with its length.
fn sign(text: &[char]) -> Option<(Token, usize)>
    ensures value { result ≡ spec.sign text.now }
    ensures bound { IfSome result (λ found. (0 < found.1) × (found.1 ≤ length text.now)) }
{
    match text {
        [] => None,
        [c] => with_length(1, single_sign(*c)),
        [c, d, ..] => match double_sign(*c, *d) {
            Some(token) => Some((token, 2)),
            None => with_length(1, single_sign(*c)),
        },
    }
}

fn refused(kind: PathKind, place: usize) -> ParseFault
    ensures { result ≡ ParseFault.Path (record { kind = kind; place = place }) }
{
    ParseFault::Path(PathFault { kind, place })
}

fn opens(token: &Token) -> bool
    ensures { result ≡ spec.opens token.now }
{
    matches!(token, Token::Open | Token::OpenPredicate)
}

fn closes(token: &Token) -> bool
    ensures { result ≡ spec.closes token.now }
{
    matches!(token, Token::Close | Token::ClosePredicate)
}

fn ends_operand(token: &Token) -> bool
    ensures { result ≡ spec.ends_operand token.now }
{
    matches!(
        token,
        Token::Whole(_)
            | Token::Literal(_)
            | Token::Name(_)
            | Token::Within(_)
            | Token::Star
            | Token::Close
            | Token::ClosePredicate
            | Token::Dot
            | Token::DotDot
    )
}

fn operator_named(word: &str) -> Option<Operator>
    ensures { result ≡ words.operator_named word.now }
{
    if word == "or" {
        Some(Operator::Binary(Bin::Or))
    } else if word == "and" {
        Some(Operator::Binary(Bin::And))
    } else if word == "div" {
        Some(Operator::Div)
    } else if word == "idiv" {
        Some(Operator::Binary(Bin::Arith(Op::Idiv)))
    } else if word == "mod" {
        Some(Operator::Binary(Bin::Arith(Op::Mod)))
    } else {
        None
    }
}

/// A name behind a token that can end an operand.
fn named(name: Written) -> Token
    ensures { result ≡ spec.classed true (Token.Name name) }
{
    if !name.prefix.is_empty() {
        return Token::Name(name);
    }
    match operator_named(name.local.as_str()) {
        Some(operator) => Token::Operator(operator),
        None => Token::Name(name),
    }
}

/// Tells `*` and the words of operators from names, behind a token that can end an operand or not.
fn classed(is_operand: bool, token: Token) -> Token
    ensures { result ≡ spec.classed is_operand token }
{
    if !is_operand {
        return token;
    }
    match token {
        Token::Star => Token::Operator(Operator::Binary(Bin::Arith(Op::Mul))),
        Token::Name(name) => named(name),
        other => other,
    }
}

/// A text in quotes, behind the first of them.
fn literal(alloc: Global, quote: char, rest: &[char]) -> Result<Option<(Token, usize)>, Memory>
    ensures value { IfOk result (λ found. found ≡ spec.literal quote rest.now) }
    ensures bound { IfOk result (λ found. IfSome found (λ f. (0 < f.1) × (f.1 ≤ length rest.now + 1))) }
{
    let n = quote_place(quote, rest);
    if n == rest.len() {
        return Ok(None);
    }
    let inner = text_of(alloc, &rest[..n])?;
    Ok(Some((Token::Literal(inner), n + 2)))
}

/// A numeral, or that it is too large.
fn numeral(text: &[char]) -> Option<(Token, usize)>
    ensures value { result ≡ (if spec.is_too_large text.now then Nothing else Just (spec.numeral text.now)) }
    ensures bound { IfSome result (λ found. found.1 ≤ length text.now) }
{
    let n = digits_len(text);
    match value_of(&text[..n]) {
        Some(value) => Some((Token::Whole(value as i64), n)),
        None => None,
    }
}

/// The token at the front of a text that begins with no digit, with its length.
fn unnumbered(alloc: Global, text: &[char]) -> Result<Option<(Token, usize)>, Memory>
    requires { spec.has_at is_ascii_digit 0 text.now ≡ false }
    ensures value { IfOk result (λ found. found ≡ spec.first_token text.now) }
    ensures bound { IfOk result (λ found. IfSome found (λ f. (0 < f.1) × (f.1 ≤ length text.now))) }
{
    let Some((c, rest)) = text.split_first() else {
        return Ok(None);
    };
    if *c == '"' || *c == '\'' {
        return literal(alloc, *c, rest);
    }
    if begins_name(*c) {
        let found = name(alloc, text)?;
        return Ok(Some(found));
    }
    Ok(sign(text))
}

/// The token at the front of a text, with its length, or why none can be read.
fn first_token(alloc: Global, text: &[char], place: usize) -> Result<(Token, usize), ParseFault>
    ensures { lexing.Finds text.now place result }
{
    if is_fraction(text) {
        return Err(refused(PathKind::Fraction, place));
    }
    if has_digit(0, text) {
        return numeral(text).ok_or(refused(PathKind::Range, place));
    }
    match unnumbered(alloc, text)? {
        Some(found) => Ok(found),
        None => Err(refused(PathKind::Syntax, place)),
    }
}

/// What stands before what follows a token that ends at a place.
fn before_next(before: Before, token: &Token, end: usize) -> Before
    requires { spec.is_too_deep before.opened token.now ≡ false }
    ensures { result ≡ spec.before_next before token.now end }
{
    let opened = if opens(token) {
        before.opened + 1
    } else if closes(token) {
        before.opened.saturating_sub(1)
    } else {
        before.opened
    };
    Before {
        at: end,
        opened,
        is_operand: ends_operand(token),
    }
}

/// Whether a token opens one bracket too many, where so many are open.
fn is_too_deep(opened: usize, token: &Token) -> bool
    ensures { result ≡ spec.is_too_deep opened token.now }
{
    opens(token) && opened >= MAX_OPEN
}

/// A token with its length and the white space before it.
#[derive(Drop)]
struct Found {
    placed: Placed,
    len: usize,
}

/// The first token of a text, unless it has none, or the fault in its place.
fn next_token(alloc: Global, before: Before, text: &[char]) -> Result<Option<Found>, ParseFault>
    requires { before.at + length text.now < 2 ^ 64 }
    ensures { lexing.Reads before text.now result }
{
    let skipped = space_len(text);
    if skipped == text.len() {
        return Ok(None);
    }
    let at = before.at + skipped;
    let (token, len) = first_token(alloc, &text[skipped..], at)?;
    if is_too_deep(before.opened, &token) {
        return Err(refused(PathKind::TooDeep, at));
    }
    let token = classed(before.is_operand, token);
    Ok(Some(Found {
        placed: Placed { token, at },
        len: skipped + len,
    }))
}

/// The tokens of a text whose first character stands at a place, or the first fault among them.
pub fn tokens(alloc: Global, text: &[char], at: usize) -> Result<List<Placed>, ParseFault>
    requires { at + length text.now < 2 ^ 64 }
    ensures { lexing.Lexes at text.now result }
{
    let mut found = List::new(alloc);
    let mut before = Before {
        at,
        opened: 0,
        is_operand: false,
    };
    let mut rest = text;
    'tokens: while let Some(next) = next_token(alloc, before, rest)? {
        before = before_next(before, &next.placed.token, before.at + next.len);
        rest = &rest[next.len..];
        found.push(next.placed)?;
    }
    Ok(found)
}
