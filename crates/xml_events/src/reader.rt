ghost use Rattle.std.specs.Prelude.{◌≡◌, ◌++◌, ◌∷◌, ◌≤◌, ℕ, Bool, List, ◌<◌, ◌^◌, [], Some, None, false, true, IfOk, MatchOption, OnOk, OnErr};
ghost use Rattle.xml_tokens.specs.Reader.{fed};
ghost use Rattle.xml_tokens.specs.declared.lexeme.Ending.{Ending};
ghost use Rattle.xml_tokens.specs.declared.lexeme.Ending.TheVariants as ending;
ghost use Rattle.xml_events.specs.Answering.{Counts, EndsWhole, Goes, answer_of};
ghost use Rattle.xml_events.specs.Document.{doc, doc_for};
ghost use Rattle.xml_events.specs.Source.{ended_there, fed_with, future, source, source_for, IsAnswer, Keeps, Leaves, Shrinks};
ghost use Rattle.xml_events.specs.declared.event.Pull.TheVariants as pull;
ghost use Rattle.xml_events.specs.declared.reader.Turn.TheVariants as turn;

use crate::event::{Event, Pull};
use crate::front::Front;
use crate::place::{Place, Refusal, Word};
use std::alloc::Global;
use std::marker::Model;
use stx_base::{Limits, Memory, Spare, XmlFault, XmlKind};
use xml_tokens::{Ending, Lexeme, Lexer, Step};

/// Reads a document that comes in pieces, and tells its tree in events.
#[derive(Debug, Drop)]
pub struct EventReader {
    core: Core,
}

#[derive(Debug, Drop)]
struct Core {
    lexer: Lexer,
    place: Place,
    front: Front,
    over: Option<Ending>,
}

impl Model for EventReader {
    ghost use Rattle.xml_events.specs.Source.{Source};

    ghost Value = { Source };

    ghost use Rattle.xml_events.specs.inside.Cores.{source_in, IsSoundIn};

    ghost view = { source_in };

    ghost invariant = { IsSoundIn };
}

impl EventReader {
    /// A reader of a document that begins; with `strip` a text of white space alone is no node. Allocates nothing.
    pub fn new(alloc: Global, limits: Limits, strip: bool) -> EventReader
        ensures source { result ≡ source limits strip }
        // What is to come is the document's tree, whatever its bytes.
        ensures document { (bytes : List ℕ) (ended : Bool) → future result bytes ended ≡ doc limits strip bytes ended ∷ [] }
    {
        EventReader::for_sheet(alloc, limits, strip, false)
    }

    /// The same; with `cdata` each CDATA section is a node of its own, and else text like other.
    pub fn for_sheet(alloc: Global, limits: Limits, strip: bool, cdata: bool) -> EventReader
        ensures source { result ≡ source_for limits strip cdata }
        ensures document { (bytes : List ℕ) (ended : Bool) → future result bytes ended ≡ doc_for limits strip cdata bytes ended ∷ [] }
    {
        EventReader {
            core: Core {
                lexer: Lexer::new(alloc, limits),
                place: Place::new(alloc, limits, cdata),
                front: Front::new(strip),
                over: None,
            },
        }
    }

    /// Takes the document's next bytes. After a refusal nothing has changed.
    pub fn feed(&mut self, piece: &[u8]) -> Result<(), Memory>
        requires { self.old.lexer.ended ≡ false }
        ensures ok { OnOk result (self.new ≡ fed_with self.old piece.now) }
        ensures err { OnErr result (self.new ≡ self.old) }
        // The piece is no longer to come, and nothing else has changed.
        ensures future { OnOk result ((more : List ℕ) (ended : Bool) → future self.new more ended ≡ future self.old (piece.now ++ more) ended) }
    {
        self.core.lexer.feed(piece)
    }

    /// Says that the document ends here.
    pub fn finish(&mut self)
        ensures source { self.new ≡ ended_there self.old }
        ensures future { self.old.lexer.ended ≡ false → (more : List ℕ) (ended : Bool) → future self.new more ended ≡ future self.old [] true }
    {
        self.core.lexer.finish();
    }

    /// The next event, or why there is none. An answer other than an event and `Need` is repeated from then on. Most of
    /// its texts are made of what is spare.
    #[inline(always)]
    pub fn next(&mut self, spare: &mut Spare) -> Pull
        ensures answer { IsAnswer self.old result }
        ensures leaves { Leaves self.old result self.new }
        ensures shrinks { Shrinks self.old result self.new }
        // What is repeated is the answer itself: want of memory comes behind no other ending.
        ensures repeats { (over : Ending) → self.old.over ≡ Some over → result ≡ answer_of over }
        ensures goes { Goes self.old result self.new }
        ensures lists { Counts self.old result self.new }
        ensures whole { EndsWhole self.old result }
        ensures wants { result ≡ pull.Need → fed self.old.lexer ≤ self.old.lexer.limits.input }
        ensures keeps { result ≡ pull.Need → Keeps self.new }
        ensures ended { self.new.lexer.ended ≡ self.old.lexer.ended }
        ensures fed { fed self.new.lexer ≡ fed self.old.lexer }
        ensures limits { self.new.limits ≡ self.old.limits }
        ensures lexer_limits { self.new.lexer.limits ≡ self.old.lexer.limits }
    {
        if let Some(over) = self.core.over {
            return pull_of(over);
        }
        self.core.pull(spare)
    }
}

/// What the next lexeme comes to.
enum Turn {
    /// It was taken.
    Taken,
    /// There is none yet.
    Need,
    /// There is none, and the document has so many bytes.
    End(u64),
    Bad(XmlFault),
    Memory,
}

impl Core {
    ghost use Rattle.xml_events.specs.inside.Cores.{end_lexeme, Answers, Ends, Fails, IsReading, IsSame, Receives, TakesEnd, Turns};
    ghost use Rattle.xml_events.specs.Before as spec;
    ghost use Rattle.xml_events.specs.inside.Taking.{before_of, names_of, IsFit};

    // No answer is repeated yet. What is read stays in the front until it is given, since events are large to move.
    #[inline(always)]
    fn pull(&mut self, spare: &mut Spare) -> Pull
        requires reads { IsReading self.old }
        requires going { self.old.over ≡ None }
        ensures answers { Answers self.old result self.new }
    {
        loop {
            if let Some(event) = self.front.give() {
                return Pull::Event(event);
            }
            match self.read(spare) {
                Turn::Taken => {}
                Turn::Need => return Pull::Need,
                Turn::End(offset) => return Pull::Event(Event::DocumentEnd { offset }),
                Turn::Bad(fault) => return Pull::Bad(fault),
                Turn::Memory => {
                    self.over = Some(Ending::Memory);
                    return Pull::Memory;
                }
            }
        }
    }

    // Reads a lexeme. It stays a function by itself, so that an event that is known is given without its frame.
    #[inline(never)]
    fn read(&mut self, spare: &mut Spare) -> Turn
        requires reads { IsReading self.old }
        requires going { self.old.over ≡ None }
        requires none { self.old.front.settled ≡ false }
        ensures turns { Turns self.old result self.new }
        ensures same { IsSame self.old.lexer self.new.lexer }
        ensures limits { self.new.place.limits ≡ self.old.place.limits }
    {
        match self.take_end() {
            Some(offset) => self.close(offset, spare),
            None => self.read_any(spare),
        }
    }

    // Takes the end tag of the innermost open element, if it is next; most end tags need no lexeme so.
    #[inline(always)]
    fn take_end(&mut self) -> Option<u64>
        requires { IsFit self.old.place }
        ensures { MatchOption result (self.new ≡ self.old) (λ offset. TakesEnd self.old offset self.new) }
    {
        let name = self.place.innermost()?;
        self.lexer.take_end(name)
    }

    #[inline(always)]
    fn read_any(&mut self, spare: &mut Spare) -> Turn
        requires reads { IsReading self.old }
        requires going { self.old.over ≡ None }
        requires none { self.old.front.settled ≡ false }
        ensures turns { Turns self.old result self.new }
        ensures same { IsSame self.old.lexer self.new.lexer }
        ensures limits { self.new.place.limits ≡ self.old.place.limits }
    {
        match self.lexer.next(spare) {
            Step::Lexeme(lexeme) => self.take(lexeme, spare),
            Step::Need => Turn::Need,
            Step::End => self.end(),
            Step::Bad(fault) => self.fail(fault),
            Step::Memory => Turn::Memory,
        }
    }

    // The innermost open element ends.
    #[inline(always)]
    fn close(&mut self, offset: u64, spare: &mut Spare) -> Turn
        requires fit { IsFit self.old.place }
        requires inside { spec.is_inside (names_of self.old.place) ≡ true }
        requires none { self.old.front.settled ≡ false }
        ensures receives { (name : List ℕ) → spec.is_innermost name (names_of self.old.place) ≡ true → Receives self.old (end_lexeme offset name) result self.new }
        ensures lexer { self.new.lexer ≡ self.old.lexer }
        ensures limits { self.new.place.limits ≡ self.old.place.limits }
    {
        self.place.close();
        match self.front.take(offset, Word::Close, spare) {
            Ok(()) => Turn::Taken,
            Err(Memory) => Turn::Memory,
        }
    }

    fn take(&mut self, lexeme: Lexeme, spare: &mut Spare) -> Turn
        requires fit { IsFit self.old.place }
        requires none { self.old.front.settled ≡ false }
        ensures receives { Receives self.old lexeme result self.new }
        ensures lexer { self.new.lexer ≡ self.old.lexer }
        ensures limits { self.new.place.limits ≡ self.old.place.limits }
    {
        let Lexeme { offset, body } = lexeme;
        match self.place.take(body, spare) {
            Ok(word) => match self.front.take(offset, word, spare) {
                Ok(()) => Turn::Taken,
                Err(Memory) => Turn::Memory,
            },
            Err(Refusal::Xml(kind)) => self.fail(XmlFault { kind, offset }),
            Err(Refusal::Memory) => Turn::Memory,
        }
    }

    fn fail(&mut self, fault: XmlFault) -> Turn
        ensures turn { result ≡ turn.Bad fault }
        ensures fails { Fails fault self.old self.new }
    {
        self.over = Some(Ending::Bad(fault));
        Turn::Bad(fault)
    }

    // No bytes are left.
    fn end(&mut self) -> Turn
        ensures lexer { self.new.lexer ≡ self.old.lexer }
        ensures ends { fed self.old.lexer < 2 ^ 64 → Ends (fed self.old.lexer) (spec.is_complete (before_of self.old.place)) self.old result self.new }
    {
        let offset = self.lexer.fed();
        if !self.place.is_complete() {
            return self.fail(XmlFault {
                kind: XmlKind::Truncated,
                offset,
            });
        }
        self.over = Some(Ending::End);
        Turn::End(offset)
    }
}

fn pull_of(over: Ending) -> Pull
    ensures { result ≡ answer_of over }
{
    match over {
        Ending::End => Pull::End,
        Ending::Bad(fault) => Pull::Bad(fault),
        Ending::Memory => Pull::Memory,
    }
}
