ghost use Rattle.std.specs.Prelude.{◌≡◌, ℕ, Bool, List, ◌+◌, ◌-◌, ◌++◌, ◌≤◌, ◌<◌, ◌^◌, min, false, true, not, ◌&&◌, if◌then◌else◌, length, take, drop, vec_len, None, IfOk, IfSome, IsUtf8, OnOk, OnErr};
ghost use Rattle.std.specs.Str.{chars};
ghost use Rattle.stx_base.specs.Character.{is_name};
ghost use Rattle.xml_tokens.specs.Reader as spec;
ghost use Rattle.xml_tokens.specs.Reader.{after, begun, end_at, fed, mark_len_of, is_undecided_at, IsAnswer, MayWant, Shrinks};
ghost use Rattle.xml_tokens.specs.inside.PlainTags.{BeginsWithTag, SpellsPlainTag};
ghost use Rattle.xml_tokens.specs.inside.Simple.{IsBefore};
ghost use Rattle.xml_tokens.specs.inside.Spans.{is_plain};
ghost use Rattle.xml_tokens.specs.inside.Look.{begun_scan, reader, passed, rest_ending, TakesEnd, GoesOn, IsDue, IsShapeDue};

use crate::cut::{head, tail};
use crate::form::{Form, begins, form_of, is_part};
use crate::judge::{Unread, is_blank, judge};
use crate::lexeme::{Body, Ending, Lexeme, Step};
use crate::plain_tag::{PlainTag, plain_tag};
use crate::scan::{Found, Scan, search};
use crate::simple::{after_end_of, plain_text};
use crate::text::text_from_spare;
use std::alloc::Global;
use std::marker::Model;
use stx_base::{Limits, Memory, Spare, XmlFault, XmlKind};

/// Cuts a document that comes in pieces into lexemes.
#[derive(Debug, Drop)]
pub struct Lexer {
    alloc: Global,
    limits: Limits,
    buffer: Vec<u8>,
    /// Where the unread bytes begin in the buffer.
    start: usize,
    /// Where they begin in the document.
    offset: u64,
    ended: bool,
    scan: Scan,
    over: Option<Ending>,
}

impl Model for Lexer {
    ghost use Rattle.xml_tokens.specs.Reader.{Reader};

    ghost Value = { Reader };

    ghost use Rattle.xml_tokens.specs.inside.Lexer.{reader_of, IsSound};

    ghost view = { reader_of };

    ghost invariant = { IsSound };
}

/// What the unread bytes give.
enum Due {
    /// A lexeme, its place, and how many bytes it takes.
    Lexeme(Body, u64, usize),
    Wait(Scan),
    Over(Ending),
}

impl Lexer {
    /// A lexer of a document that begins. Allocates nothing.
    pub fn new(alloc: Global, limits: Limits) -> Lexer
        ensures { result ≡ begun limits }
    {
        Lexer {
            alloc,
            limits,
            buffer: Vec::new(alloc),
            start: 0,
            offset: 0,
            ended: false,
            scan: Scan::START,
            over: None,
        }
    }

    /// Takes the document's next bytes. After a refusal nothing has changed.
    pub fn feed(&mut self, piece: &[u8]) -> Result<(), Memory>
        requires { self.old.ended ≡ false }
        ensures ok { OnOk result (self.new ≡ record self.old { unread = self.old.unread ++ piece.now }) }
        ensures err { OnErr result (self.new ≡ self.old) }
    {
        self.buffer.extend_from_slice(piece)?;
        Ok(())
    }

    /// Says that the document ends here.
    pub fn finish(&mut self)
        ensures { self.new ≡ record self.old { ended = true } }
    {
        self.ended = true;
    }

    /// How many bytes of the document were fed, up to the last value of u64.
    pub fn fed(&self) -> u64
        ensures { result ≡ min (fed self.now) (2 ^ 64 - 1) }
    {
        let unread = self.buffer.len() - self.start;
        self.offset.saturating_add(unread as u64)
    }

    /// The next lexeme, or why there is none. An answer other than a lexeme and `Need` is repeated from then on. Texts of
    /// most lexemes are made of what is spare.
    pub fn next(&mut self, spare: &mut Spare) -> Step
        ensures answer { IsAnswer self.old result }
        ensures after { self.new ≡ after self.old result }
        ensures ended { self.new.ended ≡ self.old.ended }
        ensures shrinks { Shrinks self.old result self.new }
        ensures wants { MayWant self.old result }
        ensures fed { fed self.new ≡ fed self.old }
        ensures limits { self.new.limits ≡ self.old.limits }
    {
        self.advance(spare)
    }

    /// Takes the end tag of a name, where that is the next lexeme; says where it begins. It allocates nothing, and leaves
    /// to `next` each other lexeme, a tag with white space, and one that came in pieces.
    #[inline]
    pub fn take_end(&mut self, name: &str) -> Option<u64>
        requires { is_name (chars name.now) ≡ true }
        ensures answer { IfSome result (λ offset. IsAnswer self.old (end_at offset (chars name.now))) }
        ensures after { IfSome result (λ offset. self.new ≡ after self.old (end_at offset (chars name.now))) }
        ensures none { result ≡ None → self.new ≡ self.old }
        ensures ended { self.new.ended ≡ self.old.ended }
        ensures shrinks { IfSome result (λ offset. length self.new.unread < length self.old.unread) }
        ensures fed { fed self.new ≡ fed self.old }
        ensures limits { self.new.limits ≡ self.old.limits }
    {
        self.take_end_of(name.as_bytes())
    }

    #[inline]
    fn take_end_of(&mut self, name: &[u8]) -> Option<u64>
        requires utf8 { IsUtf8 name.now }
        requires name { is_name (chars name.now) ≡ true }
        ensures taken { IfSome result (λ offset. TakesEnd self.old offset (chars name.now) self.new) }
        ensures none { result ≡ None → self.new ≡ self.old }
    {
        if self.over.is_some() || self.scan.searched > 0 {
            return None;
        }
        let unread = tail(&self.buffer, self.start);
        let rest = after_end_of(name, unread)?;
        let size = unread.len() - rest.len();
        if size as u64 > self.room() {
            return None;
        }
        let offset = self.offset;
        self.pass(size);
        Some(offset)
    }

    /// How long a lexeme may be that begins here.
    fn room(&self) -> u64
        ensures { result ≡ min (self.now.limits.input - self.now.offset) self.now.limits.lexeme }
    {
        (self.limits.input - self.offset).min(self.limits.lexeme)
    }

    /// Goes on behind a lexeme and a byte order mark of so many bytes.
    #[inline]
    fn pass(&mut self, size: usize)
        requires unread { size ≤ length self.old.unread }
        requires input { self.old.offset + size ≤ self.old.limits.input }
        ensures { self.new ≡ passed size self.old }
    {
        let kept = let_go(&mut self.buffer, self.start + size);
        self.start = kept;
        self.offset += size as u64;
        self.scan = Scan::START;
    }

    #[inline(always)]
    fn advance(&mut self, spare: &mut Spare) -> Step
        ensures within { self.old.offset ≤ self.old.limits.input }
        ensures answer { IsAnswer self.old result }
        ensures after { self.new ≡ after self.old result }
        ensures ended { self.new.ended ≡ self.old.ended }
    {
        if let Some(ending) = self.over {
            return ending.step();
        }
        let due = look(
            self.alloc,
            &self.limits,
            tail(&self.buffer, self.start),
            self.offset,
            self.ended,
            self.scan,
            spare,
        );
        match due {
            Due::Lexeme(body, offset, size) => {
                self.pass(size);
                Step::Lexeme(Lexeme { offset, body })
            }
            Due::Wait(scan) => {
                self.scan = scan;
                Step::Need
            }
            Due::Over(ending) => {
                self.over = Some(ending);
                ending.step()
            }
        }
    }
}

/// Lets the first `read` bytes go where they are more than the others, so that each byte is moved once on the average;
/// says how many of them stay.
fn let_go(buffer: &mut Vec<u8>, read: usize) -> usize
    requires { read ≤ vec_len buffer.old }
    ensures unread { drop result buffer.new.items ≡ drop read buffer.old.items }
    ensures held { result + result ≤ length buffer.new.items }
{
    if read <= buffer.len() - read {
        return read;
    }
    drop_front(buffer, read);
    0
}

fn drop_front(buffer: &mut Vec<u8>, len: usize)
    requires { len ≤ vec_len buffer.old }
    ensures { buffer.new.items ≡ drop len buffer.old.items }
{
    let rest = buffer.len() - len;
    buffer.copy_within(len.., 0);
    buffer.truncate(rest);
}

/// What the unread bytes give, where the search for the first lexeme's end has come as far as `scan` says.
fn look(
    alloc: Global,
    limits: &Limits,
    unread: &[u8],
    offset: u64,
    ended: bool,
    scan: Scan,
    spare: &mut Spare,
) -> Due
    requires offset { offset ≤ limits.now.input }
    requires scan { GoesOn scan (reader limits.now unread.now offset ended) }
    ensures { IsDue (reader limits.now unread.now offset ended) result }
{
    let room = limits.input - offset;
    let cut = room < unread.len() as u64;
    let seen = front(unread, room);
    let mark = mark_len(offset, seen);
    let bytes = tail(seen, mark);
    let at = offset + mark as u64;
    if let Some(text) = unsearched_text(scan, bytes) {
        return at_text(limits, text, at, mark, spare);
    }
    match unsearched_tag(alloc, scan, bytes, spare) {
        Ok(None) => {}
        Ok(Some(tag)) => return at_tag(limits, tag, at, mark),
        Err(Memory) => return Due::Over(Ending::Memory),
    }
    let last = is_last(ended, cut);
    match search(bytes, last, scan) {
        Found::Whole(len) => at_shape(alloc, limits, head(bytes, len), offset == 0, at, mark),
        Found::Unended(scan) => {
            let undecided = is_open(last, at, bytes);
            match at_rest(limits, bytes.len(), at, undecided, cut, ended) {
                Some(ending) => Due::Over(ending),
                None => Due::Wait(next_scan(undecided, scan)),
            }
        }
    }
}

/// The text at the front, if it is short and says itself. A search that has begun goes on, so that no byte is passed over again.
#[inline(always)]
fn unsearched_text(scan: Scan, bytes: &[u8]) -> Option<&[u8]>
    ensures { IfSome result (λ text. (is_plain text.now ≡ true) × IsBefore 60 text.now bytes.now) }
{
    if scan.searched == 0 {
        plain_text(bytes)
    } else {
        None
    }
}

/// The start tag at the front, if it is written as most are.
#[inline(always)]
fn unsearched_tag(
    alloc: Global,
    scan: Scan,
    bytes: &[u8],
    spare: &mut Spare,
) -> Result<Option<PlainTag>, Memory>
    ensures { IfOk result (λ found. IfSome found (λ tag. BeginsWithTag tag bytes.now)) }
{
    if scan.searched == 0 {
        plain_tag(alloc, bytes, spare)
    } else {
        Ok(None)
    }
}

/// What a whole shape behind a byte order mark of `mark` bytes gives. Kept out of line, so that the code that most lexemes
/// run lies close together.
#[inline(never)]
fn at_shape(alloc: Global, limits: &Limits, bytes: &[u8], first: bool, at: u64, mark: usize) -> Due
    requires { mark + length bytes.now < 2 ^ 64 }
    ensures { IsShapeDue limits.now first bytes.now at mark result }
{
    if bytes.len() as u64 > limits.lexeme {
        return Due::Over(bad(XmlKind::LexemeTooLong, at));
    }
    match judge(alloc, bytes, first) {
        Ok(body) => Due::Lexeme(body, at, mark + bytes.len()),
        Err(Unread::Fault(kind)) => Due::Over(bad(kind, at)),
        Err(Unread::Memory) => Due::Over(Ending::Memory),
    }
}

/// What a text that says itself gives, behind a byte order mark of `mark` bytes; it is made of what is spare.
fn at_text(limits: &Limits, bytes: &[u8], at: u64, mark: usize, spare: &mut Spare) -> Due
    requires plain { is_plain bytes.now ≡ true }
    requires within { mark + length bytes.now < 2 ^ 64 }
    ensures { (first : Bool) → IsShapeDue limits.now first bytes.now at mark result }
{
    if bytes.len() as u64 > limits.lexeme {
        return Due::Over(bad(XmlKind::LexemeTooLong, at));
    }
    match text_from_spare(bytes, spare) {
        Ok(text) => {
            let blank = is_blank(bytes);
            Due::Lexeme(Body::Chars { text, blank }, at, mark + bytes.len())
        }
        Err(Memory) => Due::Over(Ending::Memory),
    }
}

/// What a start tag behind a byte order mark of `mark` bytes gives.
fn at_tag(limits: &Limits, tag: PlainTag, at: u64, mark: usize) -> Due
    requires { mark + tag.len < 2 ^ 64 }
    ensures { (first : Bool) (bytes : List ℕ) → SpellsPlainTag tag bytes → IsShapeDue limits.now first bytes at mark result }
{
    if tag.len as u64 > limits.lexeme {
        return Due::Over(bad(XmlKind::LexemeTooLong, at));
    }
    let body = Body::Start {
        name: tag.name,
        attrs: tag.attrs,
        empty: tag.empty,
    };
    Due::Lexeme(body, at, mark + tag.len)
}

/// What `len` bytes of a lexeme that isn't whole give; `None` where more bytes must come.
fn at_rest(
    limits: &Limits,
    len: usize,
    at: u64,
    undecided: bool,
    cut: bool,
    ended: bool,
) -> Option<Ending>
    requires { at + len < 2 ^ 64 }
    ensures { result ≡ rest_ending limits.now len at undecided cut ended }
{
    if !undecided && len as u64 > limits.lexeme {
        Some(bad(XmlKind::LexemeTooLong, at))
    } else if cut {
        Some(bad(XmlKind::InputTooLong, limits.input))
    } else if !ended {
        None
    } else if len == 0 {
        Some(Ending::End)
    } else {
        Some(bad(XmlKind::Truncated, at + len as u64))
    }
}

fn bad(kind: XmlKind, offset: u64) -> Ending
    ensures { result ≡ Ending.Bad (record { kind = kind; offset = offset }) }
{
    Ending::Bad(XmlFault { kind, offset })
}

/// The bytes that are within the limit on the input.
fn front(bytes: &[u8], room: u64) -> &[u8]
    ensures { result.now ≡ take room bytes.now }
{
    if bytes.len() as u64 <= room {
        bytes
    } else {
        head(bytes, room as usize)
    }
}

/// How many bytes a byte order mark takes.
fn mark_len(offset: u64, bytes: &[u8]) -> usize
    ensures value { result ≡ mark_len_of offset bytes.now }
    ensures within { result ≤ length bytes.now }
{
    if offset == 0 && begins(bytes, b"\xEF\xBB\xBF") {
        3
    } else {
        0
    }
}

/// Whether more bytes decide what these begin.
fn is_open(last: bool, at: u64, bytes: &[u8]) -> bool
    ensures { result ≡ (not last && is_undecided_at at bytes.now) }
{
    !last && (is_undecided(form_of(bytes)) || at == 0 && is_part(bytes, b"\xEF\xBB\xBF"))
}

/// Whether no bytes follow those that are seen.
fn is_last(ended: bool, cut: bool) -> bool
    ensures { result ≡ (ended && not cut) }
{
    ended && !cut
}

/// What is undecided is looked at anew.
fn next_scan(undecided: bool, scan: Scan) -> Scan
    ensures { result ≡ (if undecided then begun_scan else scan) }
{
    if undecided { Scan::START } else { scan }
}

fn is_undecided(form: Form) -> bool
    ensures { result ≡ spec.is_undecided form }
{
    matches!(form, Form::Undecided)
}
