ghost use Rattle.std.specs.Prelude.{◌≡◌, ◌+◌, ◌<◌, ◌≤◌, ◌^◌, ◌&&◌, ◌==◌, false, not, true, nat_lt, slice_get, length, IsUtf8};
ghost use Rattle.std.specs.List.{list_all, position_or_len};
ghost use Rattle.std.specs.Option.{option_copied, option_map_or};
ghost use Rattle.std.specs.Str.{chars};
ghost use Rattle.stx_base.specs.Character as class;
ghost use Rattle.xml_tokens.specs.Judged as spec;
ghost use Rattle.xml_tokens.specs.Shape.{form};
ghost use Rattle.xml_tokens.specs.Tags as tags;
ghost use Rattle.xml_tokens.specs.inside.Spans as span;
ghost use Rattle.xml_tokens.specs.inside.Spans.{IsEase, IsJudged};

use crate::cut::{head, tail};
use crate::form::{Form, begins, form_of};
use crate::lexeme::Body;
use crate::prolog::{declared, is_doctype, is_encoding, is_version};
use crate::scan::has_word;
use crate::tag::{after_space, tag};
use crate::text::{BadText, Context, lines_of, said, text_of, unbroken_said};
use std::alloc::Global;
use stx_base::{Memory, XmlKind, are_ascii_chars, is_char, is_ncname, is_space};

/// Why a whole shape says nothing.
#[derive(Clone, Copy, Debug, PartialEq, Eq)]
pub enum Unread {
    Fault(XmlKind),
    Memory,
}

impl From<Memory> for Unread {
    ghost use Rattle.std.specs.Prelude.{◌≡◌};
    ghost use Rattle.xml_tokens.specs.declared.judge.Unread.TheVariants as made;

    ghost from_gives = { λ memory unread. unread ≡ made.Memory };

    fn from(_: Memory) -> Unread {
        Unread::Memory
    }
}

impl From<BadText> for Unread {
    ghost use Rattle.std.specs.Prelude.{◌≡◌};
    ghost use Rattle.xml_tokens.specs.Judged.{kind_of};
    ghost use Rattle.xml_tokens.specs.declared.judge.Unread.TheVariants as made;

    ghost from_gives = { λ fault unread. unread ≡ made.Fault (kind_of fault) };

    fn from(fault: BadText) -> Unread {
        Unread::Fault(match fault {
            BadText::Reference => XmlKind::BadReference,
            BadText::Entity => XmlKind::UnknownEntity,
        })
    }
}

/// What the bytes of a whole shape say, or the first kind of fault that they have. `first` says that the shape stands at
/// the document's very start.
#[tactic(auto, unfolding(crate::specs::Judged::judged))]
pub fn judge(alloc: Global, bytes: &[u8], first: bool) -> Result<Body, Unread>
    ensures { IsJudged (spec.judged first bytes.now) result }
{
    match ease_of(bytes) {
        Ease::Literal => {
            let text = text_of(alloc, bytes)?;
            let blank = is_blank(bytes);
            Ok(Body::Chars { text, blank })
        }
        Ease::Referring => referring(alloc, bytes),
        Ease::Other => match char_fault(bytes) {
            None => by_form(alloc, bytes, first),
            Some(kind) => Err(Unread::Fault(kind)),
        },
    }
}

/// What one look at each byte of a shape shows.
#[derive(Clone, Copy, Debug, PartialEq, Eq)]
pub enum Ease {
    /// A text that says itself, as most are.
    Literal,
    /// A text that says itself but for references.
    Referring,
    Other,
}

fn ease_of(bytes: &[u8]) -> Ease
    ensures { IsEase bytes.now result }
{
    match bytes {
        [] | [b'<', ..] => Ease::Other,
        _ => ease_of_text(bytes),
    }
}

fn ease_of_text(bytes: &[u8]) -> Ease
    requires { option_map_or (λ b. not (b == 60)) (slice_get bytes.now 0) false ≡ true }
    ensures { IsEase bytes.now result }
{
    // No byte ends the loop, so that many bytes are compared at once.
    let mut easy = true;
    let mut literal = true;
    for b in bytes {
        easy = easy & is_easy_byte(*b);
        literal = literal & (*b != b'&');
    }
    match (easy, literal) {
        (true, true) => Ease::Literal,
        (true, false) => Ease::Referring,
        (false, _) => Ease::Other,
    }
}

/// An easy text in which references stand.
fn referring(alloc: Global, bytes: &[u8]) -> Result<Body, Unread>
    requires utf8 { IsUtf8 bytes.now }
    requires unbroken { list_all (λ b. not (b == 13)) bytes.now ≡ true }
    ensures { IsJudged (span.chars_said bytes.now) result }
{
    let text = unbroken_said(alloc, bytes)??;
    let blank = is_blank(bytes);
    Ok(Body::Chars { text, blank })
}

/// A Char of ASCII but for `]` and a carriage return.
fn is_easy_byte(byte: u8) -> bool
    ensures { result ≡ span.is_easy_byte byte }
{
    let is_char = byte >= b' ' && byte < 0x80 || byte == b'\n' || byte == b'\t';
    is_char && byte != b']'
}

/// Why bytes are no UTF-8, or say other characters than Chars (XML 1.0, 2.2).
fn char_fault(bytes: &[u8]) -> Option<XmlKind>
    ensures { result ≡ span.char_fault bytes.now }
{
    if are_ascii_chars(bytes) {
        return None;
    }
    match simdutf8::compat::from_utf8(bytes) {
        Ok(text) if are_chars(text) => None,
        Ok(_) => Some(XmlKind::BadChar),
        Err(_) => Some(XmlKind::BadUtf8),
    }
}

fn are_chars(text: &str) -> bool
    ensures { result ≡ list_all class.is_char (chars text.now) }
{
    text.chars().all(|c| is_char(c))
}

fn by_form(alloc: Global, bytes: &[u8], first: bool) -> Result<Body, Unread>
    requires { IsUtf8 bytes.now }
    ensures { IsJudged (spec.by_form first (form bytes.now) bytes.now) result }
{
    match form_of(bytes) {
        Form::Text => text(alloc, bytes),
        Form::Comment => match between(bytes, b"<!--", b"-->") {
            Some(inside) => comment(alloc, inside),
            None => Err(Unread::Fault(XmlKind::BadMarkup)),
        },
        Form::CData => match between(bytes, b"<![CDATA[", b"]]>") {
            Some(inside) => cdata(alloc, inside),
            None => Err(Unread::Fault(XmlKind::BadMarkup)),
        },
        Form::Instruction => match between(bytes, b"<?", b"?>") {
            Some(inside) => instruction_or_declaration(alloc, inside, first),
            None => Err(Unread::Fault(XmlKind::BadPi)),
        },
        Form::Declaration => doctype(bytes),
        Form::Undecided => Err(Unread::Fault(XmlKind::BadMarkup)),
        Form::Tag => match between(bytes, b"<", b">") {
            Some(inside) => tag_or_fault(alloc, inside),
            None => Err(Unread::Fault(XmlKind::BadTag)),
        },
    }
}

/// The bytes between an opening and a closing word.
fn between<'a>(bytes: &'a [u8], opener: &[u8], closer: &[u8]) -> Option<&'a [u8]>
    requires { length opener.now + length closer.now < 2 ^ 64 }
    ensures { option_copied result ≡ spec.between opener.now closer.now bytes.now }
{
    if bytes.len() < opener.len() + closer.len() {
        return None;
    }
    let end = bytes.len() - closer.len();
    if begins(bytes, opener) && begins(tail(bytes, end), closer) {
        Some(head(tail(bytes, opener.len()), end - opener.len()))
    } else {
        None
    }
}

/// Character data (XML 1.0, 2.4).
fn text(alloc: Global, bytes: &[u8]) -> Result<Body, Unread>
    requires { IsUtf8 bytes.now }
    ensures { IsJudged (spec.text bytes.now) result }
{
    if has_word(bytes, b"]]>") {
        return Err(Unread::Fault(XmlKind::CdataEnd));
    }
    let text = said(alloc, bytes, Context::Content)??;
    let blank = is_blank(bytes);
    Ok(Body::Chars { text, blank })
}

pub fn is_blank(bytes: &[u8]) -> bool
    ensures { result ≡ list_all class.is_space bytes.now }
{
    bytes.iter().all(|b| is_space(char::from(*b)))
}

/// A comment (XML 1.0, 2.5), by the bytes between its words.
fn comment(alloc: Global, inside: &[u8]) -> Result<Body, Unread>
    requires { IsUtf8 inside.now }
    ensures { IsJudged (spec.comment inside.now) result }
{
    if has_word(inside, b"--") || inside.last() == Some(&b'-') {
        return Err(Unread::Fault(XmlKind::BadComment));
    }
    let text = lines_of(alloc, inside)?;
    Ok(Body::Comment { text })
}

/// A CDATA section (XML 1.0, 2.7), by the bytes between its words.
fn cdata(alloc: Global, inside: &[u8]) -> Result<Body, Unread>
    requires { IsUtf8 inside.now }
    ensures { IsJudged (spec.cdata inside.now) result }
{
    let text = lines_of(alloc, inside)?;
    Ok(Body::CData { text })
}

fn instruction_or_declaration(alloc: Global, inside: &[u8], first: bool) -> Result<Body, Unread>
    requires { IsUtf8 inside.now }
    ensures { IsJudged (spec.instruction_or_declaration first inside.now) result }
{
    if first && is_declaration(inside) {
        declaration(tail(inside, 3))
    } else {
        instruction(alloc, inside)
    }
}

/// Whether an instruction at the very start of a document is to be an XML declaration.
fn is_declaration(inside: &[u8]) -> bool
    ensures { result ≡ spec.is_declaration inside.now }
{
    begins(inside, b"xml")
        && match inside.get(3) {
            Some(next) => is_space(char::from(*next)) || *next == b'?',
            None => true,
        }
}

/// An XML declaration (XML 1.0, 2.8), by the bytes behind its `<?xml`.
fn declaration(told: &[u8]) -> Result<Body, Unread>
    ensures { IsJudged (spec.declaration told.now) result }
{
    let Some(told) = declared(told) else {
        return Err(Unread::Fault(XmlKind::BadDeclaration));
    };
    if !is_version(told.version) {
        return Err(Unread::Fault(XmlKind::BadVersion));
    }
    match told.encoding {
        Some(encoding) if !is_encoding(encoding) => Err(Unread::Fault(XmlKind::Encoding)),
        _ => Ok(Body::Declaration),
    }
}

/// A processing instruction (XML 1.0, 2.6), by the bytes between its words.
fn instruction(alloc: Global, inside: &[u8]) -> Result<Body, Unread>
    requires { IsUtf8 inside.now }
    ensures { IsJudged (spec.instruction inside.now) result }
{
    let (target, rest) = inside.split_at(word_len(inside));
    if !is_target(target) {
        return Err(Unread::Fault(XmlKind::BadPi));
    }
    let target = text_of(alloc, target)?;
    let text = lines_of(alloc, after_space(rest))?;
    Ok(Body::Pi { target, text })
}

/// How many bytes stand before the first white space.
fn word_len(bytes: &[u8]) -> usize
    ensures value { result ≡ position_or_len class.is_space bytes.now }
    ensures bound { result ≤ length bytes.now }
{
    bytes
        .iter()
        .take_while(|b| !is_space(char::from(**b)))
        .count()
}

/// A target that an instruction may have (PITarget; XML 1.0, 2.6, and Namespaces in XML 1.0, 7).
fn is_target(name: &[u8]) -> bool
    requires { IsUtf8 name.now }
    ensures { result ≡ spec.is_target (chars name.now) }
{
    match std::str::from_utf8(name) {
        Ok(text) => is_ncname(text) && !name.eq_ignore_ascii_case(b"xml"),
        Err(_) => unreachable!(),
    }
}

/// A document type declaration without an internal subset (XML 1.0, 2.8).
fn doctype(bytes: &[u8]) -> Result<Body, Unread>
    requires { IsUtf8 bytes.now }
    ensures { IsJudged (spec.doctype bytes.now) result }
{
    if begins(bytes, b"<!DOCTYPE") && bytes.last() == Some(&b'[') {
        return Err(Unread::Fault(XmlKind::InternalSubset));
    }
    match between(bytes, b"<!DOCTYPE", b">") {
        Some(inside) if is_doctype(inside) => Ok(Body::Doctype),
        _ => Err(Unread::Fault(XmlKind::BadMarkup)),
    }
}

/// A tag, by the bytes between its `<` and its `>`.
fn tag_or_fault(alloc: Global, inside: &[u8]) -> Result<Body, Unread>
    requires { IsUtf8 inside.now }
    ensures { IsJudged (spec.tag_or_fault (tags.tag inside.now)) result }
{
    match tag(alloc, inside)? {
        Some(body) => Ok(body?),
        None => Err(Unread::Fault(XmlKind::BadTag)),
    }
}
