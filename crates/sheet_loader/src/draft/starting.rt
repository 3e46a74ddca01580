//! What begins in a sheet: elements, and the files that it includes.

ghost use Rattle.std.specs.Prelude.{◌≡◌, ℕ, ◌∷◌, ◌≤◌, ◌-◌, [], List, None, Option, Some, false, length, map, true, bytes_eq, codes, slice_get, ◌++◌, is_some, IfOk, OnOk};
ghost use Rattle.std.specs.List.{list_any};
ghost use Rattle.std.specs.Option.{option_map_or};
ghost use Rattle.std.specs.Str.{chars};
ghost use Rattle.stx_base.specs.declared.node.First.{First};
ghost use Rattle.xml_events.specs.Tree.{Future};
ghost use Rattle.xml_events.specs.Document.{inner};
ghost use Rattle.sheet_loader.specs.Elements as element;
ghost use Rattle.sheet_loader.specs.Drafts.{before_tag, element_of, loading_of, version_in, version_taken};
ghost use Rattle.sheet_loader.specs.Steps.{AreRead, Enters, IsRead, OpensGroup, OpensInner, OpensRoot, start_parts};
ghost use Rattle.sheet_loader.specs.Keys.{names_in, own_of, text_of};
ghost use Rattle.sheet_loader.specs.Referring as referring;
ghost use Rattle.sheet_loader.specs.declared.inside.Before.TheVariants as before;
ghost use Rattle.sheet_loader.specs.Resuming.{SameAnswer};
ghost use Rattle.sheet_loader.specs.Tags.{path_fault};
ghost use Rattle.sheet_loader.specs.Taking.{without};
ghost use Rattle.sheet_loader.specs.Events.{Behind, BehindTag, BehindOther, begins, place_at, stage_of, progress_behind, then_next, wanted_by};
ghost use Rattle.sheet_loader.specs.Gathering.{IsJudged, name_fault, values_in};
ghost use Rattle.sheet_loader.specs.Judging as judging;
ghost use Rattle.sheet_loader.specs.Known as known;
ghost use Rattle.sheet_loader.specs.Lists.{OpensElementList, OpensFileList};
ghost use Rattle.sheet_loader.specs.Named.{IsApart, SameFiles, SameFilesByTag, WantsFile, is_being_read, names_of};
ghost use Rattle.sheet_loader.specs.Making as making;
ghost use Rattle.sheet_loader.specs.Meant.{before_of, inside_of, kind_of};
ghost use Rattle.sheet_loader.specs.Read as read;
ghost use Rattle.sheet_loader.specs.Reading.{File};
ghost use Rattle.sheet_loader.specs.Reading as reading;
ghost use Rattle.sheet_loader.specs.Remaining as remaining;
ghost use Rattle.sheet_loader.specs.Sound.{IsSound, is_of_parts, is_document};
ghost use Rattle.sheet_loader.specs.Values.{Reads};
ghost use Rattle.sheet_loader.specs.Versions.{language, version_of};
ghost use Rattle.stx_base.specs.Course.{Say};
ghost use Rattle.stx_base.specs.declared.fault.Place as base;

use crate::declared::Own;
use crate::draft::Draft;
use crate::element::StartTag;
use crate::frame::{Frame, OpenFile, Opened, Version};
use crate::inside::{Before, Inside};
use crate::kind::{Kind, kind_named};
use crate::names::NameSet;
use crate::refused::{Refused, Stop};
use crate::rows::rows;
use crate::tag::{STX_URI, values_of, version_of};
use crate::values::Values;
use crate::words::{is_spelled, is_word};
use sheet_model::{Group, LiteralAttr, Pass};
use std::alloc::Global;
use std::mem;
use stx_base::{Attr, Binding, Copied, List, Memory, Name, Part, Place, SheetCode, Text};
use stxpath_syntax::{Dialect, read_avt};

/// An element of the namespace of sheets, and not a literal one.
fn is_stx(name: &Name) -> bool
    ensures { result ≡ judging.is_stx name.now }
{
    is_word(&name.uri, STX_URI)
}

fn is_transform(name: &Name) -> bool
    ensures { result ≡ judging.is_transform_named name.now }
{
    if is_stx(name) {
        names_transform(name.local.as_str())
    } else {
        false
    }
}

fn names_transform(local: &str) -> bool
    ensures { result ≡ option_map_or element.is_transform (element.kind_named (chars local.now)) false }
{
    match kind_named(local) {
        None => false,
        Some(kind) => kind.is_transform(),
    }
}

/// An attribute of a literal element, as it is read.
fn literal_attr(
    alloc: Global,
    attr: Attr,
    scope: &List<Binding>,
    dialect: Dialect,
) -> Result<LiteralAttr, Refused>
    ensures { (reads : Reads) → IsRead reads dialect scope.now attr result }
{
    let Attr { name, value } = attr;
    match read_avt(alloc, &value, scope, dialect) {
        Ok(template) => Ok(LiteralAttr {
            name,
            value: template,
        }),
        Err(fault) => {
            drop(name);
            Err(Refused::from(fault))
        }
    }
}

/// The file that an include wants.
fn wanted_file(kind: Kind, values: &mut Values) -> Option<Text>
    ensures wanted { result ≡ wanted_by (kind_of kind) (values_in values.old) }
    ensures kept { element.is_include (kind_of kind) ≡ false → values_in values.new ≡ values_in values.old }
{
    match kind {
        Kind::Include => Some(values.take_word("href")),
        _ => None,
    }
}

/// A number of a list's next entry. Where none is left, that is want of memory.
fn number(len: usize) -> Result<u32, Memory>
    ensures { IfOk result (λ n. n ≡ len) }
{
    match u32::try_from(len) {
        Ok(number) => Ok(number),
        Err(_) => Err(Memory),
    }
}

impl Draft {
    /// An element begins. An include's file is wanted next: its name is the answer.
    pub fn start(
        &mut self,
        offset: u64,
        name: Name,
        attrs: List<Attr>,
        decls: List<Binding>,
    ) -> Result<Option<Text>, Stop>
        requires { IsSound self.old }
        ensures sound { OnOk result (IsSound self.new) }
        ensures wanted { IfOk result (λ wanted. WantsFile wanted (record { file = self.old.file.number; offset = offset }) self.new) }
        ensures files { SameFiles result self.old self.new }
        ensures lists { OnOk result (OpensElementList self.old self.new) }
        ensures behind { (reads : Reads) (files : List (Option File)) (first : First) (f : Future) → Behind reads files (remaining.remaining reads files (remaining.Reads_on (stage_of self.old)) (begins (record { offset = offset; name = name; attrs = attrs; decls = decls }) first f)) self.new f result }
    {
        let at = self.place(offset);
        let around = self.file.scope.len();
        self.file.declare(decls)?;
        let tag = StartTag {
            offset,
            name,
            attrs,
            around,
        };
        match self.begin(tag) {
            Ok(wanted) => Ok(wanted),
            Err(refused) => Err(refused.at(at)),
        }
    }

    fn begin(&mut self, tag: StartTag) -> Result<Option<Text>, Refused>
        requires sound { IsSound (before_tag self.old tag.around) }
        requires declared { tag.around ≤ length self.old.file.scope }
        ensures sound { OnOk result (IsSound self.new) }
        ensures wanted { IfOk result (λ wanted. WantsFile wanted (record { file = self.old.file.number; offset = tag.offset }) self.new) }
        ensures files { SameFilesByTag result self.old self.new }
        ensures lists { OnOk result (OpensElementList self.old self.new) }
        ensures behind { (reads : Reads) (files : List (Option File)) (first : First) (f : Future) → BehindTag reads files (remaining.remaining reads files (remaining.Reads_on (stage_of (before_tag self.old tag.around))) (begins (element_of tag self.old) first f)) (record { file = self.old.file.number; offset = tag.offset }) self.new f result }
    {
        if self.top.inside.is_document() {
            self.root(tag)
        } else if is_stx(&tag.name) {
            self.named(tag)
        } else {
            match self.other(tag) {
                Err(refused) => Err(refused),
                Ok(()) => Ok(None),
            }
        }
    }

    /// An element of the namespace of sheets.
    fn named(&mut self, tag: StartTag) -> Result<Option<Text>, Refused>
        requires sound { IsSound (before_tag self.old tag.around) }
        requires declared { tag.around ≤ length self.old.file.scope }
        requires version { is_some self.old.file.version ≡ true }
        ensures sound { OnOk result (IsSound self.new) }
        ensures wanted { IfOk result (λ wanted. WantsFile wanted (record { file = self.old.file.number; offset = tag.offset }) self.new) }
        ensures files { SameFilesByTag result self.old self.new }
        ensures lists { OnOk result (OpensElementList self.old self.new) }
        ensures behind { (reads : Reads) (files : List (Option File)) (first : First) (f : Future) → let e = element_of tag self.old in let p = place_at files (begins e first f) (before_tag self.old tag.around) in BehindTag reads files (then_next reads files p (read.known reads files p.here p.before e (inner f) (element.kind_named tag.name.local) (loading_of self.old)) f) (record { file = self.old.file.number; offset = tag.offset }) self.new f result }
    {
        match kind_named(tag.name.local.as_str()) {
            None => Err(Refused::Code(SheetCode::UnknownElement)),
            Some(kind) => self.element(kind, tag),
        }
    }

    /// The root of a file.
    fn root(&mut self, tag: StartTag) -> Result<Option<Text>, Refused>
        requires sound { IsSound (before_tag self.old tag.around) }
        requires declared { tag.around ≤ length self.old.file.scope }
        requires document { is_document (inside_of self.old.top.inside) ≡ true }
        ensures sound { OnOk result (IsSound self.new) }
        ensures wanted { IfOk result (λ wanted. WantsFile wanted (record { file = self.old.file.number; offset = tag.offset }) self.new) }
        ensures files { SameFilesByTag result self.old self.new }
        ensures lists { OnOk result (OpensElementList self.old self.new) }
        ensures behind { (reads : Reads) (files : List (Option File)) (first : First) (f : Future) → let e = element_of tag self.old in let p = place_at files (begins e first f) (before_tag self.old tag.around) in BehindTag reads files (then_next reads files p (read.element_of reads files p.here p.before e (inner f) p.here.inside (loading_of self.old)) f) (record { file = self.old.file.number; offset = tag.offset }) self.new f result }
    {
        if !is_transform(&tag.name) {
            return Err(Refused::Code(SheetCode::NotStx));
        }
        self.take_version(tag.attrs.as_slice());
        self.element(Kind::Transform, tag)
    }

    /// The attributes of a file's root say its version.
    fn take_version(&mut self, attrs: &[Attr])
        ensures { self.new ≡ record self.old { file = record self.old.file { version = version_taken self.old.file.version attrs.now } } }
    {
        match self.file.version {
            None => self.file.version = Some(version_of(attrs)),
            Some(_) => {}
        }
    }

    /// An element of the language.
    fn element(&mut self, kind: Kind, tag: StartTag) -> Result<Option<Text>, Refused>
        requires sound { IsSound (before_tag self.old tag.around) }
        requires declared { tag.around ≤ length self.old.file.scope }
        requires version { is_some self.old.file.version ≡ true }
        ensures sound { OnOk result (IsSound self.new) }
        ensures wanted { IfOk result (λ wanted. WantsFile wanted (record { file = self.old.file.number; offset = tag.offset }) self.new) }
        ensures files { SameFilesByTag result self.old self.new }
        ensures lists { OnOk result (OpensElementList self.old self.new) }
        ensures behind { (reads : Reads) (files : List (Option File)) (first : First) (f : Future) → let e = element_of tag self.old in let p = place_at files (begins e first f) (before_tag self.old tag.around) in BehindTag reads files (then_next reads files p (read.known reads files p.here p.before e (inner f) (Some (kind_of kind)) (loading_of self.old)) f) (record { file = self.old.file.number; offset = tag.offset }) self.new f result }
    {
        match self.judge(kind, &tag) {
            Err(refused) => {
                drop(tag);
                Err(refused)
            }
            Ok(values) => Ok(self.open(kind, tag, values)?),
        }
    }

    /// The values of the tag of an element of the language, or the first code that it shows.
    fn judge(&self, kind: Kind, tag: &StartTag) -> Result<Values, Refused>
        requires sound { IsSound (before_tag self.now tag.now.around) }
        requires declared { tag.now.around ≤ length self.now.file.scope }
        requires version { is_some self.now.file.version ≡ true }
        ensures judged { (reads : Reads) (files : List (Option File)) (f : Future) → let p = place_at files f (before_tag self.now tag.now.around) in let e = element_of tag.now self.now in IsJudged (judging.fault_of reads p.here p.before (loading_of self.now).sheet e (kind_of kind)) (judging.values reads p.here (kind_of kind) e) result }
        ensures allowed { IfOk result (λ _. element.is_allowed (inside_of self.now.top.inside) (before_of self.now.top.before) (kind_of kind) ≡ true) }
        ensures apart { IfOk result (λ v. IsApart (wanted_by (kind_of kind) (values_in v)) self.now) }
    {
        if !self.top.allows(kind) {
            return Err(Refused::Code(SheetCode::Misplaced));
        }
        let version = self.file.version();
        let rows = rows(version.dialect, !self.is_declared(), kind);
        let attrs = tag.attrs.as_slice();
        match values_of(self.alloc, rows, attrs, version, &self.file.scope) {
            Err(refused) => Err(refused),
            Ok(values) => self.judge_names(kind, values),
        }
    }

    /// The values of a tag, or the first code that its names show.
    fn judge_names(&self, kind: Kind, values: Values) -> Result<Values, Refused>
        ensures judged { (around : ℕ) (files : List (Option File)) (f : Future) → IsSound (before_tag self.now around) → let p = place_at files f (before_tag self.now around) in IsJudged (name_fault p.here p.before (loading_of self.now).sheet (kind_of kind) (values_in values)) (values_in values) result }
        ensures apart { IfOk result (λ v. IsApart (wanted_by (kind_of kind) (values_in v)) self.now) }
    {
        match self.clash(kind, &values) {
            Err(Memory) => {
                drop(values);
                Err(Refused::Memory)
            }
            Ok(Some(code)) => {
                drop(values);
                Err(Refused::Code(code))
            }
            Ok(None) => Ok(values),
        }
    }

    /// Whether an element declares a name again, or includes a file that is being read.
    fn clash(&self, kind: Kind, values: &Values) -> Result<Option<SheetCode>, Memory>
        ensures apart { IfOk result (λ why. why ≡ None → IsApart (wanted_by (kind_of kind) (values_in values.now)) self.now) }
        ensures code { IfOk result (λ why. (around : ℕ) (files : List (Option File)) (f : Future) → IsSound (before_tag self.now around) → let p = place_at files f (before_tag self.now around) in why ≡ name_fault p.here p.before (loading_of self.now).sheet (kind_of kind) (values_in values.now)) }
    {
        if self.declares_again(kind, values)? {
            Ok(Some(SheetCode::DuplicateName))
        } else if self.is_loop(kind, values) {
            Ok(Some(SheetCode::IncludeLoop))
        } else {
            Ok(None)
        }
    }

    /// Whether something has the element's name already.
    fn declares_again(&self, kind: Kind, values: &Values) -> Result<bool, Memory>
        ensures { IfOk result (λ again. (around : ℕ) (files : List (Option File)) (f : Future) → IsSound (before_tag self.now around) → let p = place_at files f (before_tag self.now around) in again ≡ judging.declares_again p.here p.before (loading_of self.now).sheet (kind_of kind) (values_in values.now)) }
    {
        match values.own_name() {
            None => Ok(false),
            Some(name) => {
                let own = Own::of(self.alloc, self.top.group, Some(name))?;
                Ok(
                    self.register
                        .is_taken(kind, self.is_declared(), &own, &self.top.given),
                )
            }
        }
    }

    /// Whether a file is included that is being read.
    fn is_loop(&self, kind: Kind, values: &Values) -> bool
        ensures apart { result ≡ false → IsApart (wanted_by (kind_of kind) (values_in values.now)) self.now }
        ensures looped { (around : ℕ) (files : List (Option File)) (f : Future) → IsSound (before_tag self.now around) → result ≡ judging.is_loop (place_at files f (before_tag self.now around)).here (kind_of kind) (values_in values.now) }
    {
        match kind {
            Kind::Include => self.is_read(values.href()),
            _ => false,
        }
    }

    /// Whether a file of this name is being read.
    fn is_read(&self, name: &str) -> bool
        ensures { result ≡ is_being_read self.now (chars name.now) }
    {
        is_spelled(&self.own, name) || self.is_kept(name)
    }

    fn is_kept(&self, name: &str) -> bool
        ensures { result ≡ list_any (λ k. bytes_eq (text_of k) (chars name.now)) self.now.reading.keys }
    {
        self.reading.contains(name)
    }

    /// An element of the language without faults is open from then on. What an include wants is the answer.
    fn open(&mut self, kind: Kind, tag: StartTag, values: Values) -> Result<Option<Text>, Memory>
        requires sound { IsSound (before_tag self.old tag.around) }
        requires declared { tag.around ≤ length self.old.file.scope }
        requires version { is_some self.old.file.version ≡ true }
        requires allowed { element.is_allowed (inside_of self.old.top.inside) (before_of self.old.top.before) (kind_of kind) ≡ true }
        requires apart { IsApart (wanted_by (kind_of kind) (values_in values)) self.old }
        ensures sound { OnOk result (IsSound self.new) }
        ensures wanted { IfOk result (λ wanted. WantsFile wanted (record { file = self.old.file.number; offset = tag.offset }) self.new) }
        ensures files { OnOk result (names_of self.new ≡ names_of self.old) }
        ensures lists { OnOk result (OpensElementList self.old self.new) }
        ensures behind { IfOk result (λ wanted. (reads : Reads) (files : List (Option File)) (first : First) (f : Future) → let e = element_of tag self.old in let p = place_at files (begins e first f) (before_tag self.old tag.around) in SameAnswer reads files (then_next reads files p (read.good reads files p.here p.before e (inner f) (kind_of kind) (values_in values) (loading_of self.old)) f) (remaining.remaining reads files (progress_behind wanted self.new) f)) }
    {
        let mut values = values;
        let at = self.place(tag.offset);
        let own = self.refer(at, kind, &values)?;
        let inside = self.top.inside.of(kind, values.has_select());
        let locals = self.register.locals();
        let (group, pass) = self.enter(kind, &mut values, at)?;
        self.register.bring_by_loop(kind, &own.name)?;
        let wanted = wanted_file(kind, &mut values);
        let list = Frame {
            opened: Opened::Element { kind, values, own },
            inside,
            at: tag.offset,
            group,
            pass,
            items: List::new(self.alloc),
            before: Before::Something,
            given: NameSet::new(self.alloc),
            locals,
            around: tag.around,
            parts: self.parts.len(),
        };
        self.push(list)?;
        Ok(wanted)
    }

    /// Takes what a tag refers to. The answer is its name, in the group in which it stands.
    fn refer(&mut self, at: Place, kind: Kind, values: &Values) -> Result<Own, Memory>
        ensures own { IfOk result (λ own. own_of own ≡ record { group = self.old.top.group; name = making.bare (making.name (values_in values.now)) }) }
        ensures known { OnOk result ((around : ℕ) (files : List (Option File)) (f : Future) → IsSound (before_tag self.old around) → let p = place_at files f (before_tag self.old around) in known.known self.new.register ≡ known.refers_to (referring.references at p.here p.before (loading_of self.old).sheet (kind_of kind) (values_in values.now)) (known.known self.old.register)) }
        ensures others { self.new ≡ record self.old { register = self.new.register } }
    {
        let own = Own::of(self.alloc, self.top.group, values.own_name())?;
        let is_declared = self.is_declared();
        let groups = &self.sheet.groups;
        self.register
            .refer_by_tag(at, kind, is_declared, &own, values, groups)?;
        Ok(own)
    }

    /// The group of what stands in an element, which may come to be with it, and what that passes through.
    fn enter(&mut self, kind: Kind, values: &mut Values, at: Place) -> Result<(u32, Pass), Memory>
        ensures { IfOk result (λ made. Enters (element.makes_group (kind_of kind)) (values_in values.old) (values_in values.new) at made self.old self.new) }
    {
        if kind.makes_group() {
            self.open_group(values, at)
        } else {
            Ok((self.top.group, self.top.pass))
        }
    }

    /// A group comes to be; the transform of the sheet itself is the root.
    fn open_group(&mut self, values: &mut Values, at: Place) -> Result<(u32, Pass), Memory>
        ensures number { IfOk result (λ made. made ≡ (length self.new.sheet.groups - 1, making.pass_or self.old.top.pass (making.value_at (codes "pass-through") (values_in values.old)))) }
        ensures group { OnOk result (OpensGroup (values_in values.old) at self.old self.new) }
        ensures kept { OnOk result (making.value_at (codes "pass-through") (values_in values.new) ≡ making.value_at (codes "pass-through") (values_in values.old)) }
    {
        let pass = values.pass_or(self.top.pass);
        if self.top.inside.is_own() {
            let number = self.open_root(values, at)?;
            Ok((number, pass))
        } else {
            let number = self.open_inner(values, at)?;
            Ok((number, pass))
        }
    }

    /// The root group comes to be, the first of all, with what the transform says of white space and of CDATA sections.
    fn open_root(&mut self, values: &Values, at: Place) -> Result<u32, Memory>
        ensures number { IfOk result (λ number. number ≡ length self.new.sheet.groups - 1) }
        ensures group { OnOk result (OpensRoot (values_in values.now) at self.old self.new) }
    {
        self.register.forget_groups();
        self.sheet.strip = values.is_yes("strip-space");
        self.sheet.cdata = values.is_yes("recognize-cdata");
        let mut groups = List::new(self.alloc);
        groups.push(Group {
            parent: None,
            name: None,
            pass: values.pass_or(Pass::None),
            at,
        })?;
        self.sheet.groups = groups;
        Ok(0)
    }

    /// A group within the innermost one comes to be; a transform that is included is one without name.
    fn open_inner(&mut self, values: &mut Values, at: Place) -> Result<u32, Memory>
        ensures number { IfOk result (λ number. number ≡ length self.new.sheet.groups - 1) }
        ensures group { OnOk result (OpensInner (values_in values.old) at self.old self.new) }
        ensures kept { OnOk result (values_in values.new ≡ without (codes "name") (values_in values.old)) }
    {
        let number = number(self.sheet.groups.len())?;
        self.register.declare_group(values.own_name())?;
        let pass = values.pass_or(self.top.pass);
        self.sheet.groups.push(Group {
            parent: Some(self.top.group),
            name: values.take_maybe_name("name"),
            pass,
            at,
        })?;
        Ok(number)
    }

    /// An element that is none of the language.
    fn other(&mut self, tag: StartTag) -> Result<(), Refused>
        requires sound { IsSound (before_tag self.old tag.around) }
        requires declared { tag.around ≤ length self.old.file.scope }
        requires version { is_some self.old.file.version ≡ true }
        ensures sound { OnOk result (IsSound self.new) }
        ensures files { SameFilesByTag result self.old self.new }
        ensures lists { OnOk result (OpensElementList self.old self.new) }
        ensures behind { (reads : Reads) (files : List (Option File)) (first : First) (f : Future) → let e = element_of tag self.old in let p = place_at files (begins e first f) (before_tag self.old tag.around) in BehindOther reads files (then_next reads files p (read.literal_judged reads files p.here p.before e (inner f) p.here.inside (loading_of self.old)) f) (record { file = self.old.file.number; offset = tag.offset }) self.new f result }
    {
        let inside = self.top.inside;
        if inside.is_of_parts() {
            self.part(tag)?;
            Ok(())
        } else if inside.allows_literals() {
            self.literal(tag)
        } else {
            Err(Refused::Code(SheetCode::Misplaced))
        }
    }

    /// The attributes of a literal element, as they are read.
    fn literal_attrs(&self, attrs: List<Attr>) -> Result<List<LiteralAttr>, Refused>
        ensures { (reads : Reads) → AreRead reads (version_in self.now.file).dialect self.now.file.scope attrs result }
    {
        let Version { dialect, .. } = self.file.version();
        let mut read = List::new(self.alloc);
        for attr in attrs.into_vec() {
            match literal_attr(self.alloc, attr, &self.file.scope, dialect) {
                Err(refused) => return Err(refused),
                Ok(attr) => read.push(attr)?,
            }
        }
        Ok(read)
    }

    /// A literal element of a body.
    fn literal(&mut self, tag: StartTag) -> Result<(), Refused>
        requires sound { IsSound (before_tag self.old tag.around) }
        requires declared { tag.around ≤ length self.old.file.scope }
        requires version { is_some self.old.file.version ≡ true }
        requires allowed { element.allows_literals (inside_of self.old.top.inside) ≡ true }
        requires no_parts { is_of_parts (inside_of self.old.top.inside) ≡ false }
        ensures sound { OnOk result (IsSound self.new) }
        ensures files { SameFilesByTag result self.old self.new }
        ensures lists { OnOk result (OpensElementList self.old self.new) }
        ensures behind { (reads : Reads) (files : List (Option File)) (first : First) (f : Future) → let e = element_of tag self.old in let p = place_at files (begins e first f) (before_tag self.old tag.around) in BehindOther reads files (then_next reads files p (option_map_or (λ why. reading.refused p.here e.offset why) (path_fault (read.templates reads files p.here e)) (read.literal reads files p.here p.before e (inner f) (loading_of self.old))) f) (record { file = self.old.file.number; offset = tag.offset }) self.new f result }
    {
        let StartTag {
            offset,
            name,
            attrs,
            around,
        } = tag;
        match self.literal_attrs(attrs) {
            Err(refused) => {
                drop(name);
                Err(refused)
            }
            Ok(attrs) => {
                let at = self.place(offset);
                self.register.refer_by_literal(at, self.top.group, &attrs)?;
                let opened = Opened::Literal { name, attrs };
                let list = self.list_within(opened, Inside::Body, offset, around);
                self.push(list)?;
                Ok(())
            }
        }
    }

    /// A list of an element that is none of the language.
    fn list_within(&self, opened: Opened, inside: Inside, at: u64, around: usize) -> Frame
        ensures list { result ≡ record { opened = opened; inside = inside; at = at; group = self.now.top.group; pass = self.now.top.pass; items = []; before = before.Something; given = result.given; locals = length (known.known self.now.register).locals; around = around; parts = length self.now.parts } }
        ensures given { names_in result.given ≡ [] }
    {
        Frame {
            opened,
            inside,
            at,
            group: self.top.group,
            pass: self.top.pass,
            items: List::new(self.alloc),
            before: Before::Something,
            given: NameSet::new(self.alloc),
            locals: self.register.locals(),
            around,
            parts: self.parts.len(),
        }
    }

    /// A literal element of a buffer's content: it carries no bindings along.
    fn part(&mut self, tag: StartTag) -> Result<(), Memory>
        requires sound { IsSound (before_tag self.old tag.around) }
        requires declared { tag.around ≤ length self.old.file.scope }
        requires version { is_some self.old.file.version ≡ true }
        requires parts { is_of_parts (inside_of self.old.top.inside) ≡ true }
        ensures sound { OnOk result (IsSound self.new) }
        ensures files { OnOk result (names_of self.new ≡ names_of self.old) }
        ensures lists { OnOk result (OpensElementList self.old self.new) }
        ensures behind { OnOk result ((reads : Reads) (files : List (Option File)) (first : First) (f : Future) → let e = element_of tag self.old in let p = place_at files (begins e first f) (before_tag self.old tag.around) in SameAnswer reads files (then_next reads files p (read.copied reads files p.here e (inner f) (loading_of self.old)) f) (remaining.remaining reads files (remaining.Reads_on (stage_of self.new)) f)) }
    {
        let StartTag {
            offset,
            name,
            attrs,
            around,
        } = tag;
        let start = self.parts.len();
        self.add_start(&name, attrs)?;
        let list = self.list_within(Opened::Part { name, start }, Inside::Parts, offset, around);
        self.push(list)
    }

    /// The content of a buffer has the start of an element more, with its attributes.
    fn add_start(&mut self, name: &Name, attrs: List<Attr>) -> Result<(), Memory>
        ensures { OnOk result (self.new ≡ record self.old { parts = self.old.parts ++ start_parts name.now attrs }) }
    {
        let name = name.copy(self.alloc)?;
        let scope = List::new(self.alloc);
        self.take_part(Part::Start { name, scope })?;
        for attr in attrs.into_vec() {
            let Attr { name, value } = attr;
            self.take_part(Part::Attribute { name, value })?;
        }
        Ok(())
    }

    /// The file of an include is read next, whose nodes stand in the place of the include, which is the innermost open element.
    pub fn include(&mut self, name: Text) -> Result<(), Memory>
        requires sound { IsSound self.old }
        requires wanted { (at : base.Place) × WantsFile (Some name) at self.old }
        ensures sound { OnOk result (IsSound self.new) }
        ensures names { OnOk result ((loading_of self.new).sheet.files ≡ (loading_of self.old).sheet.files ++ name ∷ []) }
        ensures list { OnOk result (OpensFileList self.old self.new) }
        ensures behind { OnOk result ((reads : Reads) (files : List (Option File)) (file : File) (f : Future) → slice_get files (length (loading_of self.old).sheet.files) ≡ Some (Some file) → file.version ≡ version_of language file.nodes → SameAnswer reads files (remaining.remaining reads files (remaining.Wants_file name (stage_of self.old)) f) (Say name (remaining.remaining reads files (remaining.Reads_on (stage_of self.new)) (file.nodes ∷ f)))) }
    {
        let number = number(self.sheet.files.len() + 1)?;
        self.read_name(&name)?;
        self.sheet.files.push(name)?;
        let includer = mem::replace(&mut self.file, OpenFile::new(self.alloc, number));
        let list = self.list_within(
            Opened::File(includer),
            Inside::Document { included: true },
            0,
            0,
        );
        self.push(list)
    }

    /// A file of this name is being read from then on.
    fn read_name(&mut self, name: &Text) -> Result<(), Memory>
        ensures others { OnOk result (self.new ≡ record self.old { reading = self.new.reading }) }
        ensures kept { OnOk result (is_being_read self.old name.now ≡ false → map text_of self.new.reading.keys ≡ map text_of self.old.reading.keys ++ name.now ∷ []) }
    {
        let name = String::from_str(self.alloc, name.as_str())?;
        self.reading.insert(name)?;
        Ok(())
    }
}
