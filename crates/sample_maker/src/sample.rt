ghost use Rattle.std.specs.Prelude.{◌≡◌, [], ◌∷◌, IfOk, MatchOption, OnErr};
ghost use Rattle.sample_maker.specs.Document.{pieces};

use crate::piece::Piece;
use std::alloc::Global;
use std::marker::Model;
use stx_base::{Memory, Text};

/// The sample in pieces, seen as the list of those that are left.
#[derive(Debug, Drop)]
pub struct Sample {
    next: Option<Piece>,
}

impl Model for Sample {
    ghost use Rattle.std.specs.Prelude.{List, ℕ};
    ghost use Rattle.std.specs.Coded.{coded_list, coded_ℕ};

    ghost Value = { List (List ℕ) };

    ghost coded = { coded_list (coded_list coded_ℕ) };

    ghost use Rattle.sample_maker.specs.Left.{IsNumbered, left};

    ghost view = { λ sample. left sample.next };

    ghost invariant = { λ sample. IsNumbered sample.next };
}

/// The sample of `n` records: `<list>` and a line feed; for each number i from 1 to n
/// `<rec id="i"><name>item i</name><qty>q</qty></rec>` and a line feed, where q is the last digit of 7i; and `</list>` and a
/// line feed. Allocates nothing.
pub fn make_sample(n: u64) -> Sample
    ensures { result ≡ pieces n }
{
    Sample {
        next: Some(Piece::Head { records: n }),
    }
}

impl Sample {
    /// The next piece, `None` after the last. After a refusal it is still to come.
    pub fn next(&mut self, alloc: Global) -> Result<Option<Text>, Memory>
        ensures given { IfOk result (λ given. MatchOption given ((self.old ≡ []) × (self.new ≡ [])) (λ piece. self.old ≡ piece ∷ self.new)) }
        ensures err { OnErr result (self.new ≡ self.old) }
    {
        let Some(piece) = self.next else {
            return Ok(None);
        };
        let text = piece.text(alloc)?;
        self.next = piece.next();
        Ok(Some(text))
    }
}
