ghost use Rattle.std.specs.Prelude.{◌≡◌, ◌<◌, ◌++◌, [], ◌∷◌, List, ℕ, IfSome, IsUtf8, MatchOption, OnOk, OnErr, length};
ghost use Rattle.std.specs.Str.{chars};

use std::alloc::Global;
use std::marker::Model;
use stx_base::Memory;

/// Texts that lie one behind another, so that few take an allocation.
#[derive(Debug, Drop)]
pub struct Texts {
    text: String,
    /// How many bytes each has.
    lens: Vec<usize>,
}

impl Model for Texts {
    ghost use Rattle.std.specs.Prelude.{List, ℕ};

    ghost Value = { List (List ℕ) };

    ghost use Rattle.xml_events.specs.inside.Texts.{texts_in, HoldsTexts};

    ghost view = { texts_in };

    ghost invariant = { HoldsTexts };
}

impl Texts {
    /// No texts. Allocates nothing.
    pub fn new(alloc: Global) -> Texts
        ensures { result ≡ [] }
    {
        Texts {
            text: String::new(alloc),
            lens: Vec::new(alloc),
        }
    }

    pub fn len(&self) -> usize
        ensures { result ≡ length self.now }
    {
        self.lens.len()
    }

    /// Appends a text. After a refusal the texts are unchanged.
    #[inline]
    pub fn push(&mut self, text: &str) -> Result<(), Memory>
        ensures ok { OnOk result (self.new ≡ self.old ++ chars text.now ∷ []) }
        ensures err { OnErr result (self.new ≡ self.old) }
    {
        self.lens.push(text.len())?;
        match self.text.push_str(text) {
            Ok(()) => Ok(()),
            Err(_) => {
                let _ = self.lens.pop();
                Err(Memory)
            }
        }
    }

    /// Takes the last text off. Allocates nothing.
    #[inline]
    pub fn pop(&mut self)
        requires { 0 < length self.old }
        ensures { (last : List ℕ) × (self.old ≡ self.new ++ last ∷ []) }
    {
        if let Some(len) = self.lens.pop() {
            let rest = self.text.len() - len;
            self.text.truncate(rest);
        }
    }

    /// The last text.
    #[inline]
    pub fn last(&self) -> Option<&str>
        ensures utf8 { IfSome result (λ text. IsUtf8 text.now) }
        ensures last { MatchOption result (self.now ≡ []) (λ text. (front : List (List ℕ)) × (self.now ≡ front ++ chars text.now ∷ [])) }
    {
        let text = self.text.as_str();
        match self.lens.last() {
            Some(len) => Some(&text[text.len() - *len..]),
            None => None,
        }
    }
}
