//! Calls of two buffers of the group 0, `a` and `b`, and one of the group 1, `c`, parted by ` | `: `a write`, `a clear` and `a close`
//! open a buffer to be written, emptied first or not, and close it; `a PART` puts a part; `a open` and `a leave` open and close it to be
//! read, `a events` tells the events of the copy that is read, `a event PLACE` the one at a place, and `a read` does all three; `a uses` tells
//! what any of its copies is open for; `0 shadow` and `0 unshadow` lay copies over those of a group, and take them off. What a row sets
//! under the name of a buffer is what it begins with. Told is what calls give, parted by ` | `, and of those that are refused the fault and
//! their number.

ghost use Rattle.std.specs.Prelude.{◌≡◌, ◌<◌, IfOk, IsSome};
ghost use Rattle.event_buffers.specs.Buffers as spec;
ghost use Rattle.event_buffers.specs.Buffers.{copies_of};

mod held;
mod sheet;

use crate::events;
use crate::writer::part_of;
use event_buffers::{BufferFault, Told};
use held::Held;
use rows::{Row, Trouble};
use sheet::sheet_of;
use std::alloc::Global;
use std::fmt::Write;
use stx_base::{Limits, Part};

/// What was told, and the number of the next call.
#[derive(Drop)]
struct Telling {
    text: String,
    place: u64,
}

impl Telling {
    fn new(alloc: Global) -> Telling {
        Telling {
            text: String::new(alloc),
            place: 0,
        }
    }

    fn tell(&mut self, text: &str) -> Result<(), Trouble> {
        if !self.text.is_empty() {
            self.text.push_str(" | ")?;
        }
        Ok(self.text.push_str(text)?)
    }

    /// Each event has a blank behind it, but for the last one here.
    fn tell_events(&mut self, events: &str) -> Result<(), Trouble> {
        match events.strip_suffix(' ') {
            Some(events) => self.tell(events),
            None => self.tell("nothing"),
        }
    }

    /// Adds `FAULT at PLACE`, where the call is refused.
    fn answer(&mut self, answer: Result<(), BufferFault>) -> Result<(), Trouble> {
        match answer {
            Ok(()) => Ok(()),
            Err(BufferFault::Memory) => Err(Trouble::Memory),
            Err(BufferFault::Result(fault)) => {
                self.tell("")?;
                Ok(write!(&mut self.text, "{fault:?} at {}", self.place)?)
            }
            Err(fault) => {
                self.tell("")?;
                Ok(write!(&mut self.text, "{fault:?} at {}", self.place)?)
            }
        }
    }
}

pub fn tell(alloc: Global, row: &Row, out: &mut String) -> Result<(), Trouble> {
    let mut held = begun(alloc, row)?;
    let mut telling = Telling::new(alloc);
    let done = call_all(alloc, &mut held, row.given, &mut telling);
    drop(held);
    out.push_str(telling.text.as_str())?;
    done
}

fn begun(alloc: Global, row: &Row) -> Result<Held, Trouble> {
    let limits = limits_of(row)?;
    let sheet = sheet_of(alloc, row)?;
    let held = Held::new(alloc, &sheet, &limits);
    drop(sheet);
    match held {
        Ok(held) => Ok(held),
        Err(_) => Err(Trouble::Memory),
    }
}

fn limits_of(row: &Row) -> Result<Limits, Trouble> {
    let limits = row.limits()?;
    Ok(Limits {
        buffer: row.number("buffer", limits.buffer)?,
        ..limits
    })
}

fn call_all(
    alloc: Global,
    held: &mut Held,
    calls: &str,
    told: &mut Telling,
) -> Result<(), Trouble> {
    for call in calls.split(" | ") {
        call_one(alloc, held, call, told)?;
        told.place = told.place.saturating_add(1);
    }
    Ok(())
}

fn call_one(alloc: Global, held: &mut Held, call: &str, told: &mut Telling) -> Result<(), Trouble> {
    let (name, what) = call.split_once(' ').unwrap_or((call, ""));
    match name {
        "0" | "1" => call_group(held, name == "0", what),
        _ => call_buffer(alloc, held, number_of(name)?, what, told),
    }
}

fn number_of(name: &str) -> Result<u32, Trouble>
    ensures { IfOk result (λ id. id < 3) }
{
    match name {
        "a" => Ok(0),
        "b" => Ok(1),
        "c" => Ok(2),
        _ => Err(Trouble::Row("a buffer that isn't there")),
    }
}

fn call_group(held: &mut Held, is_first: bool, what: &str) -> Result<(), Trouble> {
    match what {
        "shadow" if is_first => held.shadow_first(),
        "shadow" => held.shadow_second(),
        "unshadow" if is_first => held.unshadow_first(),
        "unshadow" => held.unshadow_second(),
        _ => Err(Trouble::Row("a call that a group doesn't have")),
    }
}

fn call_buffer(
    alloc: Global,
    held: &mut Held,
    id: u32,
    what: &str,
    told: &mut Telling,
) -> Result<(), Trouble>
    requires { id < 3 }
{
    match what {
        "write" => told.answer(held.open_write(id, false)),
        "clear" => told.answer(held.open_write(id, true)),
        "close" => close(held, id, told),
        "open" => told.answer(held.open_read(id)),
        "leave" => leave(held, id),
        "events" => tell_events(alloc, held, id, told),
        "read" => read(alloc, held, id, told),
        "uses" => tell_uses(held, id, told),
        _ => match what.strip_prefix("event ") {
            Some(place) => tell_event_at(alloc, held, id, place, told),
            None => put(held, id, part_of(alloc, what)?, told),
        },
    }
}

fn put(held: &mut Held, id: u32, part: Part, told: &mut Telling) -> Result<(), Trouble>
    requires { id < 3 }
{
    if held.is_written(id) {
        return told.answer(held.put(id, part));
    }
    drop(part);
    Err(Trouble::Row("a part for a buffer that isn't written"))
}

fn close(held: &mut Held, id: u32, told: &mut Telling) -> Result<(), Trouble>
    requires { id < 3 }
{
    if held.is_written(id) {
        return told.answer(held.close_write(id));
    }
    Err(Trouble::Row("a buffer that isn't written is closed"))
}

fn leave(held: &mut Held, id: u32) -> Result<(), Trouble>
    requires { id < 3 }
{
    if held.is_read(id) {
        held.close_read(id);
        return Ok(());
    }
    Err(Trouble::Row("a buffer that isn't read is left"))
}

/// Opens a buffer to be read, tells all its events, and closes it.
fn read(alloc: Global, held: &mut Held, id: u32, told: &mut Telling) -> Result<(), Trouble>
    requires { id < 3 }
{
    let opened = held.open_read(id);
    if opened.is_err() {
        return told.answer(opened);
    }
    tell_events(alloc, held, id, told)?;
    leave(held, id)
}

/// All events of the copy that is read.
fn tell_events(alloc: Global, held: &Held, id: u32, told: &mut Telling) -> Result<(), Trouble>
    requires { id < 3 }
{
    if !held.is_read(id) {
        return Err(Trouble::Row("a buffer that isn't read is asked for events"));
    }
    let mut events = String::new(alloc);
    add_events(held, id, &mut events)?;
    told.tell_events(events.as_str())
}

fn add_events(held: &Held, id: u32, out: &mut String) -> Result<(), Trouble>
    requires id { id < 3 }
    requires read { IsSome (spec.read (copies_of held.now id)) }
{
    let mut place = 0usize;
    for _ in 0..u64::MAX {
        match add_event(held, id, place, out)? {
            Some(next) => place = next,
            None => return Ok(()),
        }
    }
    Ok(())
}

/// Tells the event at a place, if there is one. The place behind it.
fn add_event(held: &Held, id: u32, place: usize, out: &mut String) -> Result<Option<usize>, Trouble>
    requires id { id < 3 }
    requires read { IsSome (spec.read (copies_of held.now id)) }
{
    match held.event(id, place)? {
        Some(told) => add_told(told, out),
        None => Ok(None),
    }
}

fn add_told(told: Told, out: &mut String) -> Result<Option<usize>, Trouble> {
    let next = told.next;
    let done = events::tell(&told.event, out);
    drop(told);
    match done {
        Ok(()) => Ok(Some(next)),
        Err(trouble) => Err(trouble),
    }
}

fn tell_event_at(
    alloc: Global,
    held: &Held,
    id: u32,
    place: &str,
    told: &mut Telling,
) -> Result<(), Trouble>
    requires { id < 3 }
{
    let Ok(place) = place.parse::<usize>() else {
        return Err(Trouble::Row("a place is wanted"));
    };
    if !held.is_read(id) {
        return Err(Trouble::Row("a buffer that isn't read is asked for events"));
    }
    let mut events = String::new(alloc);
    let _next = add_event(held, id, place, &mut events)?;
    told.tell_events(events.as_str())
}

/// What a buffer is open for, in any of its copies.
fn tell_uses(held: &Held, id: u32, told: &mut Telling) -> Result<(), Trouble>
    requires { id < 3 }
{
    told.tell(match (held.is_written(id), held.is_read(id)) {
        (true, true) => "written and read",
        (true, false) => "written",
        (false, true) => "read",
        (false, false) => "neither",
    })
}
