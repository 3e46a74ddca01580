ghost use Rattle.std.specs.Prelude.{◌≡◌, ◌++◌, None, IfOk, List as Items};
ghost use Rattle.std.specs.List.{flat_map};
ghost use Rattle.xml_tokens.specs.Run.{document, IsDrained, Lexes};
ghost use Rattle.xml_tokens.specs.declared.lexeme.Ending.{Ending as Over};
ghost use Rattle.xml_tokens.specs.declared.lexeme.Lexeme.{Lexeme as Word};

use crate::lexeme::{Ending, Lexeme, Step};
use crate::lexer::Lexer;
use std::alloc::Global;
use stx_base::{Limits, List, Memory, Spare};

/// The lexemes of a document, and what ends them.
#[derive(Debug, Drop)]
pub struct Run {
    pub lexemes: List<Lexeme>,
    pub ending: Ending,
}

/// The lexemes of a document that comes in these pieces.
pub fn lex(alloc: Global, limits: Limits, pieces: &[Vec<u8>]) -> Result<Run, Memory>
    // They are those of the pieces joined.
    ensures lexemes { IfOk result (λ run. Lexes (document limits (flat_map (λ piece. piece.items) pieces.now)) run.lexemes run.ending) }
    // There are no others, so it doesn't matter how the document was cut into pieces.
    ensures only { IfOk result (λ run. (others : Items Word) (over : Over) →
        Lexes (document limits (flat_map (λ piece. piece.items) pieces.now)) others over → (run.lexemes ≡ others) × (run.ending ≡ over)) }
{
    let mut lexer = Lexer::new(alloc, limits);
    let mut spare = Spare::new(alloc);
    let mut lexemes = List::new(alloc);
    for piece in pieces {
        lexer.feed(piece)?;
        if let Some(ending) = drain(&mut lexer, &mut lexemes, &mut spare)? {
            return Ok(Run { lexemes, ending });
        }
    }
    lexer.finish();
    match drain(&mut lexer, &mut lexemes, &mut spare)? {
        Some(ending) => Ok(Run { lexemes, ending }),
        None => unreachable!(),
    }
}

/// Appends the lexemes that are whole, and says what ends them if no more bytes must come.
fn drain(
    lexer: &mut Lexer,
    lexemes: &mut List<Lexeme>,
    spare: &mut Spare,
) -> Result<Option<Ending>, Memory>
    requires { lexer.old.over ≡ None }
    ensures { IfOk result (λ over. IsDrained lexer.old lexemes.old lexer.new lexemes.new over) }
{
    'taking: loop {
        match lexer.next(spare) {
            Step::Lexeme(lexeme) => lexemes.push(lexeme)?,
            Step::Need => return Ok(None),
            Step::End => return Ok(Some(Ending::End)),
            Step::Bad(fault) => return Ok(Some(Ending::Bad(fault))),
            Step::Memory => return Err(Memory),
        }
    }
}
