ghost use Rattle.std.specs.Prelude.{◌≡◌, ◌<◌, ◌-◌, ◌++◌, ◌∷◌, [], OnOk, OnErr, length, take};
ghost use Rattle.std.specs.Option.{option_copied};
ghost use Rattle.std.specs.Str.{chars};
ghost use Rattle.xml_names.specs.Scope.{last_uri};

use crate::words::is_spelled;
use std::alloc::Global;
use std::collections::BTreeMap;
use std::marker::Model;
use stx_base::{Binding, Copied, List, Memory, Text};

// Up to so many declarations it takes less time to compare each than to look a prefix up.
const FEW: usize = 16;

/// A declaration of an entered element.
#[derive(Debug, Drop)]
struct Declared {
    binding: Binding,
    /// Where the declaration stands that it hides.
    hidden: Option<usize>,
}

/// The declarations of the entered elements, the innermost last. The last one of each prefix is found by its prefix.
#[derive(Debug, Drop)]
pub struct InForce {
    alloc: Global,
    declared: List<Declared>,
    /// Where the last declaration of each prefix stands.
    places: BTreeMap<String, usize>,
}

impl Model for InForce {
    ghost use Rattle.std.specs.Prelude.{List};
    ghost use Rattle.stx_base.specs.declared.name.Binding.{Binding};

    ghost Value = { List Binding };

    ghost use Rattle.xml_names.specs.inside.InForce.{bindings_of, IsIndexed};

    ghost view = { bindings_of };

    ghost invariant = { IsIndexed };
}

impl InForce {
    pub fn new(alloc: Global) -> InForce
        ensures { result ≡ [] }
    {
        InForce {
            alloc,
            declared: List::new(alloc),
            places: BTreeMap::new(alloc),
        }
    }

    pub fn len(&self) -> usize
        ensures { result ≡ length self.now }
    {
        self.declared.len()
    }

    /// The URI of the last declaration of the prefix.
    pub fn uri(&self, prefix: &str) -> Option<&Text>
        ensures { option_copied result ≡ last_uri self.now (chars prefix.now) }
    {
        if self.declared.len() <= FEW {
            self.searched_uri(prefix)
        } else {
            self.indexed_uri(prefix)
        }
    }

    /// The same by a search among the declarations, the innermost first.
    fn searched_uri(&self, prefix: &str) -> Option<&Text>
        ensures { option_copied result ≡ last_uri self.now (chars prefix.now) }
    {
        let mut rest = self.declared.as_slice();
        while let Some((last, others)) = rest.split_last() {
            if is_spelled(&last.binding.prefix, prefix) {
                return Some(&last.binding.uri);
            }
            rest = others;
        }
        None
    }

    /// The same by the places.
    #[inline(never)]
    fn indexed_uri(&self, prefix: &str) -> Option<&Text>
        ensures { option_copied result ≡ last_uri self.now (chars prefix.now) }
    {
        let place = self.places.get(prefix)?;
        let declared = self.declared.get(*place)?;
        Some(&declared.binding.uri)
    }

    /// Appends a declaration. After a refusal all is unchanged.
    #[inline(never)]
    fn push(&mut self, binding: &Binding) -> Result<(), Memory>
        ensures ok { OnOk result (self.new ≡ self.old ++ binding.now ∷ []) }
        ensures err { OnErr result (self.new ≡ self.old) }
    {
        let prefix = String::from_str(self.alloc, binding.prefix.as_str())?;
        let binding = binding.copy(self.alloc)?;
        let hidden = self.places.get(prefix.as_str()).copied();
        let place = self.declared.len();
        self.declared.push(Declared { binding, hidden })?;
        match self.places.insert(prefix, place) {
            Ok(_) => Ok(()),
            Err(_) => {
                self.declared.pop();
                Err(Memory)
            }
        }
    }

    /// Takes the last declaration off. Allocates nothing.
    #[inline(never)]
    fn pop(&mut self)
        ensures { self.new ≡ take (length self.old - 1) self.old }
    {
        let Some(last) = self.declared.pop() else {
            return;
        };
        let prefix = last.binding.prefix.as_str();
        match last.hidden {
            None => {
                self.places.remove(prefix);
            }
            Some(place) => {
                if let Some(shown) = self.places.get_mut(prefix) {
                    *shown = place;
                }
            }
        }
    }

    /// Appends declarations. After a refusal all is unchanged.
    pub fn extend(&mut self, bindings: &[Binding]) -> Result<(), Memory>
        ensures ok { OnOk result (self.new ≡ self.old ++ bindings.now) }
        ensures err { OnErr result (self.new ≡ self.old) }
    {
        let len = self.len();
        for binding in bindings {
            if self.push(binding).is_err() {
                self.truncate(len);
                return Err(Memory);
            }
        }
        Ok(())
    }

    /// Takes all declarations off but the first `len`. Allocates nothing.
    #[inline(always)]
    pub fn truncate(&mut self, len: usize)
        ensures { self.new ≡ take len self.old }
    {
        while self.len() > len {
            self.pop();
        }
    }
}
