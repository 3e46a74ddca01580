//! A start tag of the language: its attributes by their rows, and the faults that they show.

ghost use Rattle.std.specs.Prelude.{◌≡◌, ◌||◌, [], Err, IfOk, List, None, OnOk, Result, Some, bytes_eq, false, map, not};
ghost use Rattle.std.specs.List.{list_all, list_any};
ghost use Rattle.std.specs.Option.{option_copied, option_or};
ghost use Rattle.std.specs.Str.{chars};
ghost use Rattle.sheet_loader.specs.Gathering.{Adds, Gathers, IsJudged, attribute_fault, first_other, other_fault, value_fault, values_in};
ghost use Rattle.sheet_loader.specs.Judging as attribute;
ghost use Rattle.sheet_loader.specs.Judging.{values_found};
ghost use Rattle.sheet_loader.specs.Meant.{Tells, row_of};
ghost use Rattle.sheet_loader.specs.Elements.{lookup};
ghost use Rattle.sheet_loader.specs.Tags as spec;
ghost use Rattle.sheet_loader.specs.Values as given;
ghost use Rattle.sheet_loader.specs.Values.{Reads};
ghost use Rattle.sheet_loader.specs.Meant as meant;
ghost use Rattle.sheet_loader.specs.Versions.{language, version_by_root, version_named};

use crate::frame::Version;
use crate::refused::Refused;
use crate::rows::{Form, Row};
use crate::value::{Value, value_of};
use crate::values::Values;
use crate::words::{is_spelled, is_word};
use std::alloc::Global;
use stx_base::{Attr, Binding, List, Memory, SheetCode, Text};
use stxpath_syntax::Dialect;

/// The namespace of sheets.
pub const STX_URI: &'static str = "http://stx.sourceforge.net/2002/ns";

/// Whether an attribute has no namespace.
fn is_plain(attr: &Attr) -> bool
    ensures { result ≡ spec.is_plain attr.now }
{
    attr.name.uri.is_empty()
}

/// The value of the attribute of this name that has no namespace.
pub fn text_at<'a>(attrs: &'a [Attr], name: &str) -> Option<&'a Text>
    ensures { option_copied result ≡ spec.text_at attrs.now (chars name.now) }
{
    for attr in attrs {
        if is_plain(attr) && is_spelled(&attr.name.local, name) {
            return Some(&attr.value);
        }
    }
    None
}

/// Whether no row has the attribute; those of namespaces other than that of sheets count for nothing.
fn is_unknown(rows: &[Row], attr: &Attr) -> bool
    ensures { result ≡ spec.is_unknown (map row_of rows.now) attr.now }
{
    (is_plain(attr) && !has_row(rows, &attr.name.local)) || is_word(&attr.name.uri, STX_URI)
}

fn is_named(row: &Row, name: &Text) -> bool
    ensures { result ≡ bytes_eq (row_of row.now).name name.now }
{
    is_spelled(name, row.name)
}

/// Whether a row has the name.
fn has_row(rows: &[Row], name: &Text) -> bool
    ensures { not result ≡ list_all (λ row. not (bytes_eq row.name name.now)) (map row_of rows.now) }
{
    for row in rows {
        if is_named(row, name) {
            return true;
        }
    }
    false
}

fn is_missing(attrs: &[Attr], row: &Row) -> bool
    ensures { result ≡ spec.is_missing attrs.now (row_of row.now) }
{
    row.is_required && text_at(attrs, row.name).is_none()
}

/// The version that a text names.
fn dialect_named(text: &Text) -> Option<Dialect>
    ensures { result ≡ lookup language.versions text.now }
{
    if is_word(text, "1.0") {
        Some(Dialect::One)
    } else if is_word(text, "1.1") {
        Some(Dialect::OneOne)
    } else {
        None
    }
}

/// The version that a root names. A file whose root names none that there is has what the newest has.
fn version_named(text: Option<&Text>) -> Version
    ensures { meant.version_of result ≡ version_named language (option_copied text.entry) }
{
    let dialect = match text {
        Some(text) => dialect_named(text),
        None => None,
    };
    match dialect {
        Some(dialect) => Version {
            dialect,
            is_known: true,
        },
        None => Version {
            dialect: Dialect::OneOne,
            is_known: false,
        },
    }
}

/// The version of a file, by the attributes of its root.
pub fn version_of(attrs: &[Attr]) -> Version
    ensures { meant.version_of result ≡ version_by_root language (Some attrs.now) }
{
    version_named(text_at(attrs, "version"))
}

/// What was read of the values of a tag.
#[derive(Drop)]
pub struct Gathered {
    values: Values,
    has_bad_value: bool,
    /// The first fault of the path language.
    path_fault: Option<SheetCode>,
}

impl Gathered {
    fn new(alloc: Global) -> Gathered
        ensures values { values_in result.values ≡ [] }
        ensures good { result.has_bad_value ≡ false }
        ensures readable { result.path_fault ≡ None }
    {
        Gathered {
            values: Values::new(alloc),
            has_bad_value: false,
            path_fault: None,
        }
    }

    fn refuse(&mut self, code: SheetCode)
        ensures values { self.new.values ≡ self.old.values }
        ensures bad { self.new.has_bad_value ≡ (self.old.has_bad_value || spec.is_bad_value (Some (Err code))) }
        ensures path { self.new.path_fault ≡ option_or self.old.path_fault (other_fault (Some (Err code))) }
    {
        match code {
            SheetCode::BadValue => self.has_bad_value = true,
            code => {
                if self.path_fault.is_none() {
                    self.path_fault = Some(code);
                }
            }
        }
    }

    /// Takes what was read at a row.
    fn add(&mut self, row: &'static Row, read: Result<Value, Refused>) -> Result<(), Memory>
        ensures { OnOk result ((found : Result given.Value SheetCode) → Tells found read → Adds (row_of row.now) (Some found) self.old self.new) }
    {
        match read {
            Ok(value) => self.values.add(row.name, value),
            Err(Refused::Memory) => Err(Memory),
            Err(Refused::Code(code)) => {
                self.refuse(code);
                Ok(())
            }
        }
    }

    /// Takes what stands at a row.
    fn add_row(
        &mut self,
        alloc: Global,
        row: &'static Row,
        attrs: &[Attr],
        dialect: Dialect,
        scope: &List<Binding>,
    ) -> Result<(), Memory>
        ensures { OnOk result ((reads : Reads) → Adds (row_of row.now) (spec.found_by reads dialect scope.now (row_of row.now).form (spec.text_at attrs.now (row_of row.now).name)) self.old self.new) }
    {
        match text_at(attrs, row.name) {
            None => Ok(()),
            Some(text) => self.add(row, value_of(alloc, row.form, text, dialect, scope)),
        }
    }

    fn judged(self) -> Result<Values, Refused>
        ensures { (found : List spec.Found) → self.has_bad_value ≡ list_any spec.is_bad_value found → self.path_fault ≡ first_other found → IsJudged (value_fault found) (values_in self.values) result }
    {
        let Gathered {
            values,
            has_bad_value,
            path_fault,
        } = self;
        if has_bad_value {
            drop(values);
            return Err(Refused::Code(SheetCode::BadValue));
        }
        match path_fault {
            Some(code) => {
                drop(values);
                Err(Refused::Code(code))
            }
            None => Ok(values),
        }
    }
}

/// The values of a tag's attributes, each read once.
fn gather(
    alloc: Global,
    rows: &'static [Row],
    attrs: &[Attr],
    dialect: Dialect,
    scope: &List<Binding>,
) -> Result<Gathered, Memory>
    ensures { IfOk result (λ g. (reads : Reads) → Gathers reads dialect scope.now attrs.now (map row_of rows.now) [] g) }
{
    let mut gathered = Gathered::new(alloc);
    for row in rows {
        gathered.add_row(alloc, row, attrs, dialect, scope)?;
    }
    Ok(gathered)
}

fn has_unknown(rows: &[Row], attrs: &[Attr]) -> bool
    ensures { result ≡ list_any (spec.is_unknown (map row_of rows.now)) attrs.now }
{
    attrs.iter().any(|attr| is_unknown(rows, attr))
}

fn has_missing(rows: &[Row], attrs: &[Attr]) -> bool
    ensures { result ≡ list_any (spec.is_missing attrs.now) (map row_of rows.now) }
{
    for row in rows {
        if is_missing(attrs, row) {
            return true;
        }
    }
    false
}

fn is_version(row: &Row) -> bool
    ensures { result ≡ attribute.is_version (row_of row.now).form }
{
    match row.form {
        Form::Version => true,
        _ => false,
    }
}

fn has_version(rows: &[Row]) -> bool
    ensures { result ≡ list_any (λ row. attribute.is_version row.form) (map row_of rows.now) }
{
    for row in rows {
        if is_version(row) {
            return true;
        }
    }
    false
}

/// The values of a tag's attributes, or the first code that they show.
pub fn values_of(
    alloc: Global,
    rows: &'static [Row],
    attrs: &[Attr],
    version: Version,
    scope: &List<Binding>,
) -> Result<Values, Refused>
    ensures { (reads : Reads) → IsJudged (attribute_fault reads (meant.version_of version) scope.now (map row_of rows.now) attrs.now) (values_found (map row_of rows.now) (spec.found_at reads version.dialect scope.now (map row_of rows.now) attrs.now)) result }
{
    if has_unknown(rows, attrs) {
        return Err(Refused::Code(SheetCode::UnknownAttribute));
    }
    if has_missing(rows, attrs) {
        return Err(Refused::Code(SheetCode::MissingAttribute));
    }
    if has_version(rows) && !version.is_known {
        return Err(Refused::Code(SheetCode::Version));
    }
    match gather(alloc, rows, attrs, version.dialect, scope) {
        Err(Memory) => Err(Refused::Memory),
        Ok(gathered) => gathered.judged(),
    }
}
