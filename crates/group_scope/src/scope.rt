//! The rows of a sheet.

ghost use Rattle.std.specs.Prelude.{◌≡◌, ◌<◌, ◌^◌, ◌++◌, IfOk, OnOk, length, true};
ghost use Rattle.sheet_model.specs.Sound.{IsSound};
ghost use Rattle.match_patterns.specs.Fits.{test_of};
ghost use Rattle.group_scope.specs.Entries as entries_;
ghost use Rattle.group_scope.specs.Filling as filling;
ghost use Rattle.group_scope.specs.Rows.{Key as RowKey, row};
ghost use Rattle.group_scope.specs.Words.{Keeps, all_are_numbered, are_numbered, is_numbered_template, numbered};

use crate::choosing::priority;
use crate::entry::{Entry, best_first};
use crate::home::homes;
use crate::key::Test;
use crate::rows::Rows;
use crate::words::Words;
use sheet_model::{Sheet, Template};
use std::alloc::Global;
use stx_base::Memory;
use stxpath_syntax::{Alternative, Link};

/// The alternatives of a sheet by their homes and the tests of their last steps.
#[derive(Drop)]
pub struct Scope {
    pub(crate) words: Words,
    pub(crate) rows: Rows,
}

impl Scope {
    ghost use Rattle.group_scope.specs.Scopes.{IsScopeOf};

    /// The scope of a sheet.
    pub fn build(alloc: Global, sheet: &Sheet) -> Result<Scope, Memory>
        requires { IsSound sheet.now }
        ensures { IfOk result (IsScopeOf sheet.now) }
    {
        let words = words_of(alloc, sheet)?;
        let entries = best_first(entries_of(alloc, sheet)?)?;
        let rows = rows_of(alloc, sheet, &words, entries.as_slice())?;
        Ok(Scope { words, rows })
    }
}

/// The texts of all last tests.
fn words_of(alloc: Global, sheet: &Sheet) -> Result<Words, Memory>
    ensures { IfOk result (λ words. all_are_numbered words sheet.now.templates ≡ true) }
{
    let mut words = Words::new(alloc);
    for template in sheet.templates.as_slice() {
        note_template(alloc, &mut words, template)?;
    }
    Ok(words)
}

fn note_template(alloc: Global, words: &mut Words, template: &Template) -> Result<(), Memory>
    ensures numbered { OnOk result (is_numbered_template words.new template.now ≡ true) }
    ensures kept { OnOk result (Keeps words.old words.new) }
{
    for alternative in template.pattern.alternatives.as_slice() {
        note(alloc, words, alternative)?;
    }
    Ok(())
}

fn note(alloc: Global, words: &mut Words, alternative: &Alternative) -> Result<(), Memory>
    ensures numbered { OnOk result (are_numbered words.new (test_of alternative.now) ≡ true) }
    ensures kept { OnOk result (Keeps words.old words.new) }
{
    if let Alternative::Steps(steps) = alternative {
        if let Some(step) = steps.last() {
            words.note(alloc, &step.test)?;
        }
    }
    Ok(())
}

/// The test of the last step.
fn last_test(words: &Words, alternative: &Alternative) -> Test
    ensures { result ≡ numbered words.now (test_of alternative.now) }
{
    let Alternative::Steps(steps) = alternative else {
        return Test::Document;
    };
    match steps.last() {
        Some(step) => words.numbered(&step.test),
        None => Test::Document,
    }
}

/// All alternatives, in the order of the sheet.
fn entries_of(alloc: Global, sheet: &Sheet) -> Result<Vec<Entry>, Memory>
    requires { IsSound sheet.now }
    ensures { IfOk result (λ entries. entries.items ≡ filling.entries_from 0 sheet.now.templates) }
{
    let mut entries = Vec::new(alloc);
    for (index, template) in sheet.templates.as_slice().iter().enumerate() {
        push_entries(&mut entries, index as u32, template)?;
    }
    Ok(entries)
}

fn push_entries(entries: &mut Vec<Entry>, number: u32, template: &Template) -> Result<(), Memory>
    requires { length template.now.pattern.alternatives < 2 ^ 32 }
    ensures { OnOk result (entries.new.items ≡ entries.old.items ++ filling.entries_of number template.now) }
{
    for (place, alternative) in template.pattern.alternatives.as_slice().iter().enumerate() {
        let entry = entry_of(number, template, place as u32, alternative);
        entries.push(entry)?;
    }
    Ok(())
}

fn entry_of(number: u32, template: &Template, place: u32, alternative: &Alternative) -> Entry
    ensures { result ≡ filling.entry_at number template.now place alternative.now }
{
    Entry {
        priority: priority(template, alternative),
        template: number,
        alternative: place,
        by_test: goes_by_test(alternative),
    }
}

/// Whether it is `/`, or a lone step without predicates and without a leading slash.
fn goes_by_test(alternative: &Alternative) -> bool
    ensures { result ≡ entries_.goes_by_test alternative.now }
{
    let Alternative::Steps(steps) = alternative else {
        return true;
    };
    match steps.as_slice() {
        [step] => matches!(step.link, Link::Start) && step.predicates.is_empty(),
        _ => false,
    }
}

/// The rows of alternatives.
fn rows_of(alloc: Global, sheet: &Sheet, words: &Words, entries: &[Entry]) -> Result<Rows, Memory>
    ensures { IfOk result (filling.AreFilledBy sheet.now words.now entries.now) }
{
    let mut rows = Rows::new(alloc);
    for entry in entries {
        enter(alloc, sheet, words, &mut rows, *entry)?;
    }
    Ok(rows)
}

fn enter(
    alloc: Global,
    sheet: &Sheet,
    words: &Words,
    rows: &mut Rows,
    entry: Entry,
) -> Result<(), Memory>
    ensures { OnOk result ((key : RowKey) → row rows.new key ≡ row rows.old key ++ filling.entered_of sheet.now words.now key entry) }
{
    let Some(template) = sheet.templates.get(entry.template as usize) else {
        return Ok(());
    };
    let place = entry.alternative as usize;
    let Some(alternative) = template.pattern.alternatives.get(place) else {
        return Ok(());
    };
    let homes = homes(&sheet.groups, template);
    rows.push_all(alloc, &homes, last_test(words, alternative), entry)
}
