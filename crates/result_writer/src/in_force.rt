//! Bindings, as those that the open elements declared, of which the last one of a prefix is found without a walk over all.

ghost use Rattle.std.specs.Prelude.{◌≡◌, ◌<◌, ◌-◌, ◌^◌, ◌++◌, ◌∷◌, [], ℕ, true, false, List as Items, OnOk, OnErr, length, take, map, unwrap_or, IfOk};
ghost use Rattle.std.specs.Option.{option_copied};
ghost use Rattle.result_writer.specs.Table.{bound_from};

use crate::words::same;
use std::alloc::Global;
use std::collections::BTreeMap;
use std::marker::Model;
use stx_base::{Binding, List, Memory, Text};

// Up to so many bindings it takes less time to compare each than to look a prefix up.
const FEW: usize = 16;

/// Bindings, the innermost last. Those behind the first few are found by their prefixes.
#[derive(Debug, Drop)]
pub struct InForce {
    first: List<Binding>,
    others: Indexed,
}

impl Model for InForce {
    ghost use Rattle.std.specs.Prelude.{List, ◌++◌};
    ghost use Rattle.stx_base.specs.declared.name.Binding.{Binding};

    ghost Value = { List Binding };

    ghost view = { λ in_force. in_force.first ++ in_force.others };
}

impl InForce {
    /// Allocates nothing.
    pub fn new(alloc: Global) -> InForce
        ensures { result ≡ [] }
    {
        InForce {
            first: List::new(alloc),
            others: Indexed::new(alloc),
        }
    }

    pub fn len(&self) -> usize
        ensures { result ≡ length self.now }
    {
        self.first.len() + self.others.len()
    }

    /// The URI of the last binding of the prefix.
    #[inline(always)]
    pub fn uri(&self, prefix: &Text) -> Option<&Text>
        ensures { (u : Items ℕ) → unwrap_or (option_copied result) u ≡ bound_from u self.now prefix.now }
    {
        if self.others.is_empty() {
            return last_uri(self.first.as_slice(), prefix);
        }
        match self.others.uri(prefix) {
            Some(uri) => Some(uri),
            None => last_uri(self.first.as_slice(), prefix),
        }
    }

    /// All of them, in their order. After a refusal they are dropped.
    pub fn into_list(self) -> Result<List<Binding>, Memory>
        ensures { IfOk result (λ bindings. bindings ≡ self) }
    {
        let InForce { first, others } = self;
        let mut bindings = first;
        for entry in others.into_entries().into_vec() {
            let Entry { binding, .. } = entry;
            bindings.push(binding)?;
        }
        Ok(bindings)
    }

    /// Appends bindings. After a refusal they are dropped, and all else is unchanged.
    pub fn extend(&mut self, bindings: List<Binding>) -> Result<(), Memory>
        ensures ok { OnOk result (self.new ≡ self.old ++ bindings) }
        ensures err { OnErr result (self.new ≡ self.old) }
    {
        let len = self.len();
        match self.append(bindings) {
            Ok(()) => Ok(()),
            Err(refused) => {
                self.truncate(len);
                Err(refused)
            }
        }
    }

    /// Takes all bindings off but the first `len`. Allocates nothing.
    pub fn truncate(&mut self, len: usize)
        ensures { self.new ≡ take len self.old }
    {
        while self.len() > len {
            self.pop();
        }
    }

    /// Appends bindings. After a refusal some of them may be there.
    #[tactic(auto, using(crate::proofs::InFront::kept_all))]
    fn append(&mut self, bindings: List<Binding>) -> Result<(), Memory>
        ensures ok { OnOk result (self.new ≡ self.old ++ bindings) }
        ensures kept { take (length self.old) self.new ≡ self.old }
    {
        for binding in bindings.into_vec() {
            self.push(binding)?;
        }
        Ok(())
    }

    /// Appends a binding. After a refusal it is dropped, and all else is unchanged.
    #[tactic(auto, using(crate::proofs::InFront::pushed_first, crate::proofs::InFront::pushed_other))]
    pub fn push(&mut self, binding: Binding) -> Result<(), Memory>
        ensures ok { OnOk result (self.new ≡ self.old ++ binding ∷ []) }
        ensures err { OnErr result (self.new ≡ self.old) }
    {
        if self.others.is_empty() && self.first.len() < FEW {
            self.first.push(binding)?;
        } else {
            self.others.push(binding)?;
        }
        Ok(())
    }

    #[tactic(auto, using(crate::proofs::InFront::popped_first, crate::proofs::InFront::popped_other))]
    fn pop(&mut self)
        ensures { self.new ≡ take (length self.old - 1) self.old }
    {
        if self.others.is_empty() {
            let len = self.first.len();
            self.first.truncate(len.saturating_sub(1));
        } else {
            self.others.pop();
        }
    }
}

/// The URI of the last of these bindings of the prefix.
fn last_uri<'a>(bindings: &'a [Binding], prefix: &Text) -> Option<&'a Text>
    ensures { (u : Items ℕ) → unwrap_or (option_copied result) u ≡ bound_from u bindings.now prefix.now }
{
    let mut rest = bindings;
    while let Some((last, others)) = rest.split_last() {
        if same(&last.prefix, prefix) {
            return Some(&last.uri);
        }
        rest = others;
    }
    None
}

/// A binding, and the one that it hides.
#[derive(Debug, Drop)]
struct Entry {
    binding: Binding,
    /// Where the last one before it of its prefix stands.
    hidden: Option<usize>,
}

/// Bindings that are found by their prefixes.
#[derive(Debug, Drop)]
struct Indexed {
    alloc: Global,
    entries: List<Entry>,
    /// Where the last binding of each prefix stands.
    places: BTreeMap<String, usize>,
}

impl Model for Indexed {
    ghost use Rattle.std.specs.Prelude.{List};
    ghost use Rattle.stx_base.specs.declared.name.Binding.{Binding};

    ghost Value = { List Binding };

    ghost use Rattle.result_writer.specs.InForce.{bindings_of, IsIndexed};

    ghost view = { bindings_of };

    ghost invariant = { IsIndexed };
}

impl Indexed {
    fn new(alloc: Global) -> Indexed
        ensures { result ≡ [] }
    {
        Indexed {
            alloc,
            entries: List::new(alloc),
            places: BTreeMap::new(alloc),
        }
    }

    fn len(&self) -> usize
        ensures value { result ≡ length self.now }
        ensures bound { result < 2 ^ 63 }
    {
        self.entries.len()
    }

    fn is_empty(&self) -> bool
        ensures none { result ≡ true → length self.now ≡ 0 }
        ensures some { result ≡ false → 0 < length self.now }
    {
        self.len() == 0
    }

    fn into_entries(self) -> List<Entry>
        ensures { map (λ e. e.binding) result ≡ self }
    {
        let Indexed { entries, .. } = self;
        entries
    }

    /// The URI of the last binding of the prefix.
    fn uri(&self, prefix: &Text) -> Option<&Text>
        ensures { (u : Items ℕ) → unwrap_or (option_copied result) u ≡ bound_from u self.now prefix.now }
    {
        let place = self.places.get(prefix.as_str())?;
        let entry = self.entries.get(*place)?;
        Some(&entry.binding.uri)
    }

    /// Appends a binding. After a refusal it is dropped, and all else is unchanged.
    #[inline(never)]
    fn push(&mut self, binding: Binding) -> Result<(), Memory>
        ensures ok { OnOk result (self.new ≡ self.old ++ binding ∷ []) }
        ensures err { OnErr result (self.new ≡ self.old) }
    {
        let prefix = String::from_str(self.alloc, binding.prefix.as_str())?;
        let hidden = self.places.get(prefix.as_str()).copied();
        let place = self.entries.len();
        self.entries.push(Entry { binding, hidden })?;
        match self.places.insert(prefix, place) {
            Ok(_) => Ok(()),
            Err(_) => {
                self.entries.pop();
                Err(Memory)
            }
        }
    }

    /// Takes the last binding off. Allocates nothing.
    #[inline(never)]
    fn pop(&mut self)
        ensures { self.new ≡ take (length self.old - 1) self.old }
    {
        let Some(last) = self.entries.pop() else {
            return;
        };
        let prefix = last.binding.prefix.as_str();
        match last.hidden {
            None => {
                self.places.remove(prefix);
            }
            Some(place) => {
                if let Some(shown) = self.places.get_mut(prefix) {
                    *shown = place;
                }
            }
        }
    }
}
