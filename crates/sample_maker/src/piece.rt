ghost use Rattle.std.specs.Prelude.{◌≡◌, ◌+◌, ◌*◌, ◌%◌, ◌<◌, [], ◌∷◌, ◌++◌, ◌^◌, IfOk, OnOk, Some};
ghost use Rattle.std.specs.Fmt.{decimal};
ghost use Rattle.sample_maker.specs.Document.{foot, record_text, records_from};
ghost use Rattle.sample_maker.specs.Left.{IsNumbered, left, text_of};

use itoa::Buffer;
use std::alloc::Global;
use stx_base::{Memory, Text};

/// Room for a record with the greatest number, so that its text is allocated once.
const ROOM: usize = 104;

/// What is given next.
#[derive(Clone, Copy, Debug)]
pub enum Piece {
    /// The root's start tag, with so many records behind it.
    Head { records: u64 },
    /// A record, with so many others behind it.
    Record { number: u64, others: u64 },
    /// The root's end tag.
    Foot,
}

impl Piece {
    /// The piece as a text.
    #[tactic(auto, using(crate::proofs::Spelling::root_tags))]
    pub fn text(self, alloc: Global) -> Result<Text, Memory>
        ensures { IfOk result (λ text. text ≡ text_of self) }
    {
        match self {
            Piece::Head { .. } => Text::of(alloc, "<list>\n"),
            Piece::Record { number, .. } => record(alloc, number),
            Piece::Foot => Text::of(alloc, "</list>\n"),
        }
    }

    /// The piece behind this one.
    pub fn next(self) -> Option<Piece>
        requires { IsNumbered (Some self) }
        ensures left { left (Some self) ≡ text_of self ∷ left result }
        ensures numbered { IsNumbered result }
    {
        match self {
            Piece::Head { records } => Some(behind(0, records)),
            Piece::Record { number, others } => Some(behind(number, others)),
            Piece::Foot => None,
        }
    }
}

/// The piece behind the first `done` records, where `others` are left.
fn behind(done: u64, others: u64) -> Piece
    requires { done + others < 2 ^ 64 }
    ensures left { left (Some result) ≡ records_from (done + 1) others ++ foot ∷ [] }
    ensures numbered { IsNumbered (Some result) }
{
    match others.checked_sub(1) {
        Some(others) => Piece::Record {
            number: done + 1,
            others,
        },
        None => Piece::Foot,
    }
}

fn record(alloc: Global, number: u64) -> Result<Text, Memory>
    ensures { IfOk result (λ text. text ≡ record_text number) }
{
    let string = String::with_capacity(alloc, ROOM)?;
    let mut text = Text::from_string(string);
    text.push_str("<rec id=\"")?;
    put_number(&mut text, number)?;
    text.push_str("\"><name>item ")?;
    put_number(&mut text, number)?;
    text.push_str("</name><qty>")?;
    put_number(&mut text, quantity(number))?;
    text.push_str("</qty></rec>\n")?;
    Ok(text)
}

// The last digit of seven times the number, by its own last digit, so that no product is too large.
fn quantity(number: u64) -> u64
    ensures { result ≡ 7 * number % 10 }
{
    7 * (number % 10) % 10
}

fn put_number(text: &mut Text, number: u64) -> Result<(), Memory>
    ensures { OnOk result (text.new ≡ text.old ++ decimal number) }
{
    let mut buffer = Buffer::new();
    text.push_str(buffer.format(number))
}
