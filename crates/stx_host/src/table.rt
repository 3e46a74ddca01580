ghost use Rattle.std.specs.Prelude.{◌≡◌, ℕ, ◌^◌, ◌<◌, ◌∷◌, [], ◌++◌, filter, position, not, true, false, ◌==◌, IfSome, IfOk, IfNone, OnSome, ◌-◌, ◌&&◌, count_by, nat_le, nat_lt, ◌⊎◌, ◌≤◌, OnOk, OnErr, IsOk, vec_len, vec_capacity};
ghost use Rattle.std.specs.Bool.{OnTrue, OnFalse};
ghost use Rattle.stx_host.specs.Table.{ids_of, AreDifferent, AreOpen, count_between, IsEachOpen, IsLeastFree, Adds};

use std::alloc::{AllocError, Global};

/// What is open under an id.
#[derive(Debug, Drop)]
pub(crate) struct Slot<T> {
    pub(crate) id: u32,
    pub(crate) held: T,
}

/// What a host has open, in the order of opening.
#[derive(Debug, Drop)]
pub(crate) struct Table<T> {
    pub(crate) slots: Vec<Slot<T>>,
    /// No id stands twice.
    ghost different: { AreDifferent (ids_of slots.items) },
}

impl<T: Drop> Table<T> {
    /// Keeps room for this many.
    pub(crate) fn with_room(alloc: Global, room: usize) -> Result<Table<T>, AllocError>
        ensures empty { IfOk result (λ table. table.slots.items ≡ []) }
        ensures room { IfOk result (λ table. vec_capacity table.slots ≡ room) }
    {
        let slots = Vec::with_capacity(alloc, room)?;
        Ok(Table { slots })
    }

    pub(crate) fn new(alloc: Global) -> Table<T>
        ensures { result.slots.items ≡ [] }
    {
        Table {
            slots: Vec::new(alloc),
        }
    }

    /// Makes room for one more.
    pub(crate) fn reserve(&mut self) -> Result<(), AllocError>
        ensures room { OnOk result (vec_len self.new.slots < vec_capacity self.new.slots) }
        ensures unchanged { self.new.slots.items ≡ self.old.slots.items }
    {
        self.slots.reserve(1)
    }

    /// Where an id stands.
    pub(crate) fn position(&self, id: u32) -> Option<usize>
        ensures { result ≡ position (λ slot. slot.id == id) self.now.slots.items }
    {
        self.slots.iter().position(|slot| slot.id == id)
    }

    /// How many slots have an id from `low` on and below `high`.
    fn count_between(&self, low: u64, high: u64) -> usize
        ensures { result ≡ count_by (λ slot. nat_le low slot.id && nat_lt slot.id high) self.now.slots.items }
    {
        self.slots
            .iter()
            .filter(|slot| low <= u64::from(slot.id) && u64::from(slot.id) < high)
            .count()
    }

    /// Whether each number from `low` on and below `high` is open: no id stands twice, so it is enough to count.
    fn are_open(&self, low: u64, high: u64) -> bool
        requires { low ≤ high }
        ensures all { OnTrue result (AreOpen low high (ids_of self.now.slots.items)) }
        ensures counted { OnTrue result (count_between low high (ids_of self.now.slots.items) ≡ high - low) }
        ensures some { OnFalse result (count_between low high (ids_of self.now.slots.items) < high - low) }
    {
        self.count_between(low, high) as u64 == high - low
    }

    /// The least number above 0 that isn't open. At most one more than are open it can be, and each look at
    /// all that is open halves the numbers that it still can be.
    pub(crate) fn free_id(&self) -> Option<u32>
        ensures least { IfSome result (λ id. IsLeastFree (ids_of self.now.slots.items) id) }
        ensures none { IfNone result (IsEachOpen (ids_of self.now.slots.items)) }
    {
        let mut low = 1;
        let mut high = self.slots.len() as u64 + 1;
        // mostly the first numbers are open, and one look is enough
        let mut middle = high - 1;
        while low < high {
            if self.are_open(low, middle + 1) {
                low = middle + 1;
            } else {
                high = middle;
            }
            middle = low + (high - low) / 2;
        }
        if low > u64::from(u32::MAX) {
            return None;
        }
        Some(low as u32)
    }

    /// Gives an id to what is to be held, where there is room and a number above 0 is free.
    pub(crate) fn take(&mut self, held: T) -> Option<u32>
        ensures taken { IfSome result (λ id. Adds self.old.slots.items id held self.new.slots.items) }
        ensures room { OnSome result (vec_len self.old.slots < vec_capacity self.old.slots) }
        ensures unchanged { IfNone result (self.new.slots.items ≡ self.old.slots.items) }
        ensures kept { vec_capacity self.new.slots ≡ vec_capacity self.old.slots }
        ensures none { IfNone result ((vec_capacity self.old.slots ≤ vec_len self.old.slots) ⊎ IsEachOpen (ids_of self.old.slots.items)) }
    {
        if self.slots.capacity() <= self.slots.len() {
            return None;
        }
        let id = self.free_id()?;
        self.slots.push_reserved(Slot { id, held });
        Some(id)
    }

    /// Takes the slots of an id away.
    pub(crate) fn remove(&mut self, id: u32)
        ensures removed { self.new.slots.items ≡ filter (λ slot. not (slot.id == id)) self.old.slots.items }
        ensures room { vec_capacity self.new.slots ≡ vec_capacity self.old.slots }
    {
        while let Some(at) = self.position(id) {
            self.slots.remove(at);
        }
    }
}
