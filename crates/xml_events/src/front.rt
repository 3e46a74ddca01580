ghost use Rattle.std.specs.Prelude.{◌≡◌, ◌++◌, [], ◌∷◌, IfOk, MatchOption, OnOk};
ghost use Rattle.xml_events.specs.inside.Fronts as spec;

use crate::event::Event;
use crate::place::Word;
use std::mem::replace;
use stx_base::{First, Memory, Spare, Text, is_space};
use xml_names::Resolved;

/// A start tag, and where it begins.
#[derive(Debug, Drop)]
pub struct Tag {
    offset: u64,
    resolved: Resolved,
}

/// A text, and where its first lexeme begins.
#[derive(Debug, Drop)]
pub struct Run {
    offset: u64,
    text: Text,
}

/// What follows an element and a text that are known.
#[derive(Debug, Drop)]
pub enum After {
    /// A start tag, whose element's first child isn't known.
    Open,
    /// An empty-element tag.
    Empty {
        offset: u64,
    },
    End {
        offset: u64,
    },
    /// A CDATA section that is a node of its own.
    CData {
        offset: u64,
        text: Text,
    },
    Comment {
        offset: u64,
        text: Text,
    },
    Pi {
        offset: u64,
        target: Text,
        text: Text,
    },
}

/// What was read and wasn't given yet. It stays where it is until it is given: tags are large, and events larger.
#[derive(Debug, Drop)]
pub struct Front {
    // Texts of white space alone are no nodes.
    strip: bool,
    // The innermost open element, until it is given.
    held: Option<Tag>,
    // The text behind it, until it is given.
    run: Option<Run>,
    // Something followed them: their events are known.
    settled: bool,
    // The first child of the element, where it is known.
    first: First,
    // What followed them, and its tag where it has one.
    after: After,
    next: Option<Tag>,
}

impl Front {
    ghost use Rattle.std.specs.Prelude.{false};
    ghost use Rattle.xml_events.specs.Document.{Closes, Opens, Says, Stands, element_at};
    ghost use Rattle.xml_events.specs.Tree.{CData};
    ghost use Rattle.xml_events.specs.inside.Fronts.{after_items, run_events, settled, Follows, Gives, IsDry, IsEmpty, IsSettled, Strips, TakesItems};
    ghost use Rattle.xml_events.specs.inside.Taking.{items_at};

    pub fn new(strip: bool) -> Front
        ensures { IsEmpty strip result }
    {
        Front {
            strip,
            held: None,
            run: None,
            settled: false,
            first: First::Nothing,
            after: After::Open,
            next: None,
        }
    }

    // Tags and events are large: where what follows is inlined, they are moved less often.

    /// The next event that is known.
    #[inline(always)]
    pub fn give(&mut self) -> Option<Event>
        ensures { MatchOption result (IsDry self.old self.new) (Gives self.old self.new) }
    {
        if !self.settled {
            return None;
        }
        // To take what isn't there would still move as much.
        if self.held.is_some() {
            if let Some(tag) = self.held.take() {
                let first = replace(&mut self.first, First::Nothing);
                return Some(started(tag, first));
            }
        }
        if self.run.is_some() {
            if let Some(Run { offset, text }) = self.run.take() {
                return Some(Event::Chars { offset, text });
            }
        }
        match replace(&mut self.after, After::Open) {
            After::Open => {
                self.held = self.next.take();
                self.settled = false;
                None
            }
            After::Empty { offset } => match self.next.take() {
                Some(tag) => {
                    self.after = After::End { offset };
                    Some(started(tag, First::Nothing))
                }
                None => {
                    self.settled = false;
                    Some(Event::End { offset })
                }
            },
            After::End { offset } => {
                self.settled = false;
                Some(Event::End { offset })
            }
            After::CData { offset, text } => {
                self.settled = false;
                Some(Event::CData { offset, text })
            }
            After::Comment { offset, text } => {
                self.settled = false;
                Some(Event::Comment { offset, text })
            }
            After::Pi {
                offset,
                target,
                text,
            } => {
                self.settled = false;
                Some(Event::Pi {
                    offset,
                    target,
                    text,
                })
            }
        }
    }

    /// Takes what a lexeme at a place is in the tree.
    #[inline(always)]
    pub fn take(&mut self, offset: u64, word: Word, spare: &mut Spare) -> Result<(), Memory>
        requires { self.old.settled ≡ false }
        ensures { OnOk result (TakesItems (items_at offset word) self.old self.new) }
    {
        match word {
            Word::Open(resolved) => self.open(Tag { offset, resolved }, spare),
            Word::Empty(resolved) => self.open_and_close(Tag { offset, resolved }, spare),
            Word::Close => self.follow(First::Nothing, After::End { offset }, spare),
            Word::Text(text) => self.say(offset, text, spare),
            Word::CData(text) => self.say_apart(offset, text, spare),
            Word::Comment(text) => {
                self.follow(First::Other, After::Comment { offset, text }, spare)
            }
            Word::Pi { target, text } => self.follow(
                First::Other,
                After::Pi {
                    offset,
                    target,
                    text,
                },
                spare,
            ),
            Word::Nothing => Ok(()),
        }
    }

    #[inline(always)]
    fn say(&mut self, offset: u64, text: Text, spare: &mut Spare) -> Result<(), Memory>
        requires { self.old.settled ≡ false }
        ensures { OnOk result (TakesItems (Says offset text ∷ []) self.old self.new) }
    {
        match &mut self.run {
            Some(run) => {
                let said = run.text.push_str(text.as_str());
                spare.keep(text);
                said
            }
            None => {
                self.run = Some(Run { offset, text });
                Ok(())
            }
        }
    }

    // A CDATA section that is a node of its own.
    fn say_apart(&mut self, offset: u64, text: Text, spare: &mut Spare) -> Result<(), Memory>
        requires { self.old.settled ≡ false }
        ensures { OnOk result (TakesItems (Stands (CData offset text) ∷ []) self.old self.new) }
    {
        let first = spare.text(text.as_str())?;
        self.follow(First::Chars(first), After::CData { offset, text }, spare)
    }

    #[inline(always)]
    fn open(&mut self, tag: Tag, spare: &mut Spare) -> Result<(), Memory>
        requires { self.old.settled ≡ false }
        ensures { OnOk result (TakesItems (Opens (element_at tag.offset tag.resolved) ∷ []) self.old self.new) }
    {
        self.settle(First::Other, spare)?;
        self.after = After::Open;
        self.next = Some(tag);
        Ok(())
    }

    #[inline(always)]
    fn open_and_close(&mut self, tag: Tag, spare: &mut Spare) -> Result<(), Memory>
        requires { self.old.settled ≡ false }
        ensures { OnOk result (TakesItems (Opens (element_at tag.offset tag.resolved) ∷ Closes tag.offset ∷ []) self.old self.new) }
    {
        self.settle(First::Other, spare)?;
        self.after = After::Empty { offset: tag.offset };
        self.next = Some(tag);
        Ok(())
    }

    // A leaf or an end follows that `first` tells, where it is the first child.
    #[inline(always)]
    fn follow(&mut self, first: First, after: After, spare: &mut Spare) -> Result<(), Memory>
        requires unsettled { self.old.settled ≡ false }
        requires follows { Follows after first }
        ensures { OnOk result (TakesItems (after_items after) self.old self.new) }
    {
        self.settle(first, spare)?;
        self.after = after;
        Ok(())
    }

    // Something else than a text follows: the text is a node, and the element's first child is known.
    #[inline(always)]
    fn settle(&mut self, next: First, spare: &mut Spare) -> Result<(), Memory>
        ensures { OnOk result (IsSettled next self.old self.new) }
    {
        self.strip_text();
        self.first = self.first_child(next, spare)?;
        self.settled = true;
        Ok(())
    }

    // Drops the text unless it is a node.
    #[inline(always)]
    fn strip_text(&mut self)
        ensures { Strips self.old self.new }
    {
        if let Some(run) = &self.run {
            if is_no_node(self.strip, &run.text) {
                self.run = None;
            }
        }
    }

    // The first child of the element, if there is one, where this follows the text.
    #[inline(always)]
    fn first_child(&self, next: First, spare: &mut Spare) -> Result<First, Memory>
        ensures { IfOk result (λ first. spec.begun self.now.held first ++ run_events self.now.run ≡ settled self.now.held self.now.run next) }
    {
        let Some(run) = &self.run else {
            return Ok(next);
        };
        if self.held.is_none() {
            return Ok(next);
        }
        let text = spare.text(run.text.as_str())?;
        Ok(First::Chars(text))
    }
}

// The start of an element whose first child is known.
#[inline(always)]
fn started(tag: Tag, first: First) -> Event
    ensures { result ∷ [] ≡ spec.started tag first }
{
    let Tag { offset, resolved } = tag;
    let Resolved { name, attrs, decls } = resolved;
    Event::Start {
        offset,
        name,
        attrs,
        decls,
        first,
    }
}

// Whether a text is empty, or one to be stripped.
fn is_no_node(strip: bool, text: &Text) -> bool
    ensures { result ≡ spec.is_no_node strip text.now }
{
    text.is_empty() || strip && text.as_str().chars().all(|c| is_space(c))
}
