//! What ends in a sheet, with what it adds, and its texts.

ghost use Rattle.std.specs.Prelude.{◌≡◌, ◌&&◌, ℕ, ◌∷◌, [], List, Option, map, not, take, true, ◌++◌, IfOk, OnOk};
ghost use Rattle.std.specs.List.{list_all};
ghost use Rattle.std.specs.Str.{chars};
ghost use Rattle.stx_base.specs.Character as character;
ghost use Rattle.xml_events.specs.Tree.{Future, Single, End};
ghost use Rattle.xml_events.specs.Tree as tree;
ghost use Rattle.xml_events.specs.Document.{inner, outer};
ghost use Rattle.sheet_loader.specs.Elements as element;
ghost use Rattle.sheet_loader.specs.Contents.{Holds};
ghost use Rattle.sheet_loader.specs.Steps.{AddsItem, AddsItems, AddsToList, AddsToSheet, Brings, Declares, EndsElement, LeavesName, lacks_branches as lacks, template_of};
ghost use Rattle.sheet_loader.specs.Keys.{name_of, own_of};
ghost use Rattle.sheet_loader.specs.Events.{BehindEnd, BehindNode, TakesItems, place_at, stage_of, stage_within};
ghost use Rattle.sheet_loader.specs.Gathering.{values_in};
ghost use Rattle.sheet_loader.specs.Lists.{EndsLastOr, LeavesList, SameLists};
ghost use Rattle.sheet_loader.specs.Named.{SameFiles, names_of};
ghost use Rattle.sheet_loader.specs.Making as making;
ghost use Rattle.sheet_loader.specs.Meant.{inside_of, item_of, kind_of};
ghost use Rattle.sheet_loader.specs.Read as read;
ghost use Rattle.sheet_loader.specs.Reading.{File};
ghost use Rattle.sheet_loader.specs.Reading as reading;
ghost use Rattle.sheet_loader.specs.Remaining as remaining;
ghost use Rattle.sheet_loader.specs.Sound.{IsSound, IsSoundWithin};
ghost use Rattle.sheet_loader.specs.Values.{Reads};

use crate::content::Content;
use crate::declared::Own;
use crate::draft::Draft;
use crate::frame::{Frame, OpenFile, Opened};
use crate::inside::Inside;
use crate::item::Item;
use crate::kind::Kind;
use crate::making::{Spot, item, variable};
use crate::refused::Stop;
use crate::values::Values;
use sheet_model::{Buffer, Instr, LiteralAttr, Procedure, Template};
use std::mem;
use stx_base::{List, Memory, Name, Part, Place, SheetCode, Text, is_space};

fn is_blank(text: &Text) -> bool
    ensures { result ≡ list_all character.is_space text.now }
{
    text.as_str().chars().all(|c| is_space(c))
}

/// White space alone counts only where it is kept.
fn counts_for_nothing(inside: Inside, text: &Text) -> bool
    ensures { result ≡ (list_all character.is_space text.now && not (element.keeps_space (inside_of inside))) }
{
    !inside.keeps_space() && is_blank(text)
}

/// A choose has a branch at least.
fn lacks_branches(kind: Kind, content: &Content) -> bool
    ensures { (items : List reading.Item) → Holds items content.now → result ≡ lacks (kind_of kind) items }
{
    match kind {
        Kind::Choose => !content.has_branches(),
        _ => false,
    }
}

impl Draft {
    /// A text node or a CDATA node.
    pub fn text(&mut self, offset: u64, text: Text) -> Result<(), Stop>
        requires { IsSound self.old }
        ensures sound { OnOk result (IsSound self.new) }
        ensures chars { (reads : Reads) (files : List (Option File)) (mark : tree.Mark) (f : Future) → BehindNode reads files (remaining.remaining reads files (remaining.Reads_on (stage_of self.old)) (Single mark (tree.Chars offset text) (inner f) ∷ outer f)) self.new f result }
        ensures files { SameFiles result self.old self.new }
        ensures lists { OnOk result (SameLists self.old self.new) }
        ensures cdata { (reads : Reads) (files : List (Option File)) (mark : tree.Mark) (f : Future) → BehindNode reads files (remaining.remaining reads files (remaining.Reads_on (stage_of self.old)) (Single mark (tree.CData offset text) (inner f) ∷ outer f)) self.new f result }
    {
        let inside = self.top.inside;
        if counts_for_nothing(inside, &text) {
            return Ok(());
        }
        if !inside.allows_text() {
            return Err(Stop::Fault(SheetCode::Misplaced, self.place(self.top.at)));
        }
        self.add_text(offset, text)?;
        Ok(())
    }

    /// Takes a text that counts.
    fn add_text(&mut self, offset: u64, text: Text) -> Result<(), Memory>
        requires sound { IsSound self.old }
        requires allowed { element.allows_text (inside_of self.old.top.inside) ≡ true }
        ensures sound { OnOk result (IsSound self.new) }
        ensures files { OnOk result (names_of self.new ≡ names_of self.old) }
        ensures lists { OnOk result (SameLists self.old self.new) }
        ensures takes { OnOk result ((reads : Reads) (files : List (Option File)) (f : Future) → let here = (place_at files f self.old).here in TakesItems (read.text_item reads files here offset text here.inside) self.old self.new) }
    {
        let at = self.place(offset);
        match self.top.inside {
            Inside::Characters { .. } => self.take_item(Item::Text(text)),
            Inside::Parts => self.take_part(Part::Chars { text }),
            _ => self.take_item(Item::Instruction(Instr::LiteralChars { text, at })),
        }
    }

    /// The innermost list has an item more.
    fn take_item(&mut self, item: Item) -> Result<(), Memory>
        ensures { OnOk result (AddsItem (item_of item) self.old self.new) }
    {
        self.top.add(item)
    }

    /// The innermost list ends, and with it its element, or its file. Where it is the list of the sheet's own file, all is read.
    pub fn end(&mut self) -> Result<bool, Stop>
        requires { IsSound self.old }
        ensures sound { OnOk result (IsSound self.new) }
        ensures files { SameFiles result self.old self.new }
        ensures lists { IfOk result (λ is_all. EndsLastOr is_all self.old self.new) }
        ensures behind { (reads : Reads) (files : List (Option File)) (mark : tree.Mark) (offset : ℕ) (f : Future) → BehindEnd reads files (remaining.remaining reads files (remaining.Reads_on (stage_of self.old)) (End mark offset ∷ f)) self.new f result }
    {
        match self.below.pop() {
            None => Ok(true),
            Some(around) => {
                let frame = mem::replace(&mut self.top, around);
                match self.end_list(frame) {
                    Ok(()) => Ok(false),
                    Err(stop) => Err(stop),
                }
            }
        }
    }

    /// The list ends that was the innermost one.
    fn end_list(&mut self, frame: Frame) -> Result<(), Stop>
        requires { IsSoundWithin frame self.old }
        ensures sound { OnOk result (IsSound self.new) }
        ensures files { SameFiles result self.old self.new }
        ensures lists { OnOk result (LeavesList frame.opened self.old self.new) }
        ensures behind { (reads : Reads) (files : List (Option File)) (mark : tree.Mark) (offset : ℕ) (f : Future) → BehindNode reads files (remaining.remaining reads files (remaining.Reads_on (stage_within frame self.old)) (End mark offset ∷ f)) self.new f result }
    {
        let Frame {
            opened,
            at,
            items,
            locals,
            around,
            ..
        } = frame;
        let at = self.place(at);
        self.register.leave(locals);
        match opened {
            Opened::Sheet => {
                drop(items);
                Ok(())
            }
            Opened::File(includer) => {
                drop(items);
                self.end_file(includer);
                Ok(())
            }
            Opened::Element { kind, values, own } => {
                let ended = self.end_element(at, kind, values, own, items);
                self.leave_scope(around);
                ended
            }
            Opened::Literal { name, attrs } => {
                self.end_literal(at, name, attrs, items, around)?;
                Ok(())
            }
            Opened::Part { name, .. } => {
                drop(items);
                self.end_part(name, around)?;
                Ok(())
            }
        }
    }

    /// The declarations but for the first so many are out of scope.
    fn leave_scope(&mut self, around: usize)
        ensures { self.new ≡ record self.old { file = record self.old.file { scope = take around self.old.file.scope } } }
    {
        self.file.scope.truncate(around);
    }

    /// The file ends that was read.
    fn end_file(&mut self, includer: OpenFile)
        ensures others { self.new ≡ record self.old { file = includer; reading = self.new.reading } }
        ensures name { LeavesName self.old self.new }
    {
        self.file = includer;
        self.reading.pop();
    }

    /// An element of a buffer's content ends.
    fn end_part(&mut self, name: Name, around: usize) -> Result<(), Memory>
        ensures { OnOk result (self.new ≡ record self.old { file = record self.old.file { scope = take around self.old.file.scope }; parts = self.old.parts ++ Part.End name ∷ [] }) }
    {
        self.take_part(Part::End { name })?;
        self.file.scope.truncate(around);
        Ok(())
    }

    /// A literal element of a body ends.
    fn end_literal(
        &mut self,
        at: Place,
        name: Name,
        attrs: List<LiteralAttr>,
        items: List<Item>,
        around: usize,
    ) -> Result<(), Memory>
        ensures { OnOk result (AddsItem (reading.Instruction (Instr.Literal name attrs (making.body (map item_of items)) at)) (record self.old { file = record self.old.file { scope = take around self.old.file.scope } }) self.new) }
    {
        self.file.scope.truncate(around);
        match Content::of(self.alloc, items) {
            Err(error) => {
                drop(name);
                drop(attrs);
                Err(error)
            }
            Ok(content) => {
                let mut content = content;
                let body = content.take_body();
                drop(content);
                self.take_item(Item::Instruction(Instr::Literal {
                    name,
                    attrs,
                    body,
                    at,
                }))
            }
        }
    }

    /// An element of the language ends.
    fn end_element(
        &mut self,
        at: Place,
        kind: Kind,
        values: Values,
        own: Own,
        items: List<Item>,
    ) -> Result<(), Stop>
        ensures { EndsElement (kind_of kind) at (values_in values) (own_of own) (map item_of items) self.old self.new result }
    {
        match Content::of(self.alloc, items) {
            Err(_) => {
                drop(own);
                drop(values);
                Err(Stop::Memory)
            }
            Ok(content) => self.close(at, kind, own, values, content),
        }
    }

    /// The same, where its list came to this.
    fn close(
        &mut self,
        at: Place,
        kind: Kind,
        own: Own,
        values: Values,
        content: Content,
    ) -> Result<(), Stop>
        ensures { (items : List reading.Item) → Holds items content → EndsElement (kind_of kind) at (values_in values) (own_of own) items self.old self.new result }
    {
        let mut values = values;
        let mut content = content;
        let ended = self.add(at, kind, own, &mut values, &mut content);
        drop(content);
        drop(values);
        ended
    }

    /// What an element of the language adds to the sheet, or to the list in which it stands.
    fn add(
        &mut self,
        at: Place,
        kind: Kind,
        own: Own,
        values: &mut Values,
        content: &mut Content,
    ) -> Result<(), Stop>
        ensures { (items : List reading.Item) → Holds items content.old → EndsElement (kind_of kind) at (values_in values.old) (own_of own) items self.old self.new result }
    {
        if lacks_branches(kind, content) {
            return Err(Stop::Fault(SheetCode::Misplaced, at));
        }
        let spot = Spot {
            at,
            group: self.top.group,
        };
        if self.is_declared() {
            self.add_to_sheet(spot, kind, own, values, content)?;
            Ok(())
        } else {
            self.add_to_list(spot, kind, own, values, content)?;
            Ok(())
        }
    }

    /// What a declaration adds to the sheet, whose name is known from then on.
    fn add_to_sheet(
        &mut self,
        spot: Spot,
        kind: Kind,
        own: Own,
        values: &mut Values,
        content: &mut Content,
    ) -> Result<(), Memory>
        ensures { OnOk result ((items : List reading.Item) → Holds items content.old → AddsToSheet (kind_of kind) spot.group spot.at (values_in values.old) (own_of own) items self.old self.new) }
    {
        match self.declare(spot, kind, values, content) {
            Ok(()) => self.register.declare(kind, own),
            Err(error) => {
                drop(own);
                Err(error)
            }
        }
    }

    /// What an element adds to its list, whose name is in scope from then on.
    fn add_to_list(
        &mut self,
        spot: Spot,
        kind: Kind,
        own: Own,
        values: &mut Values,
        content: &mut Content,
    ) -> Result<(), Memory>
        ensures { OnOk result ((items : List reading.Item) → Holds items content.old → AddsToList (kind_of kind) spot.group spot.at (values_in values.old) (own_of own) items self.old self.new) }
    {
        match self.add_item(spot, kind, values, content) {
            Ok(()) => self.bring(kind, own),
            Err(error) => {
                drop(own);
                Err(error)
            }
        }
    }

    /// Takes the name of an item.
    fn bring(&mut self, kind: Kind, own: Own) -> Result<(), Memory>
        ensures { OnOk result (Brings (kind_of kind) (name_of own.name) self.old self.new) }
    {
        match kind {
            Kind::WithParam => self.top.given.add(own.name),
            _ => self.register.bring_by_item(kind, own.name),
        }
    }

    fn add_item(
        &mut self,
        spot: Spot,
        kind: Kind,
        values: &mut Values,
        content: &mut Content,
    ) -> Result<(), Memory>
        ensures { OnOk result ((items : List reading.Item) → Holds items content.old → AddsItems (making.item (kind_of kind) spot.group spot.at self.old.file.scope (values_in values.old) items) self.old self.new) }
    {
        match item(self.alloc, kind, spot, &self.file.scope, values, content)? {
            None => Ok(()),
            Some(item) => self.take_item(item),
        }
    }

    /// What a declaration adds to the sheet.
    fn declare(
        &mut self,
        spot: Spot,
        kind: Kind,
        values: &mut Values,
        content: &mut Content,
    ) -> Result<(), Memory>
        ensures { OnOk result ((items : List reading.Item) → Holds items content.old → Declares (kind_of kind) spot.group spot.at (values_in values.old) items self.old self.new) }
    {
        match kind {
            Kind::Template => self.declare_template(spot, values, content),
            Kind::Procedure => self.declare_procedure(spot, values, content),
            Kind::Buffer => self.declare_buffer(spot, values),
            Kind::Variable => self.sheet.variables.push(variable(spot, false, values)),
            Kind::Param => self.sheet.variables.push(variable(spot, true, values)),
            _ => Ok(()),
        }
    }

    fn declare_template(
        &mut self,
        spot: Spot,
        values: &mut Values,
        content: &mut Content,
    ) -> Result<(), Memory>
        ensures { OnOk result ((items : List reading.Item) → Holds items content.old → self.new ≡ record self.old { sheet = record self.old.sheet { templates = self.old.sheet.templates ++ template_of spot.group spot.at (values_in values.old) items ∷ [] } }) }
    {
        self.sheet.templates.push(Template {
            group: spot.group,
            pattern: values.take_pattern("match"),
            priority: values.priority(),
            visibility: values.visibility(),
            public: values.is_yes("public"),
            new_scope: values.is_yes("new-scope"),
            params: content.take_params(),
            body: content.take_body(),
            at: spot.at,
        })
    }

    fn declare_procedure(
        &mut self,
        spot: Spot,
        values: &mut Values,
        content: &mut Content,
    ) -> Result<(), Memory>
        ensures { OnOk result ((items : List reading.Item) → Holds items content.old → self.new ≡ record self.old { sheet = record self.old.sheet { procedures = self.old.sheet.procedures ++ record { group = spot.group; name = making.name (values_in values.old); params = making.params items; body = making.body items; at = spot.at } ∷ [] } }) }
    {
        self.sheet.procedures.push(Procedure {
            group: spot.group,
            name: values.take_name(),
            params: content.take_params(),
            body: content.take_body(),
            at: spot.at,
        })
    }

    fn declare_buffer(&mut self, spot: Spot, values: &mut Values) -> Result<(), Memory>
        ensures { OnOk result (self.new ≡ record self.old { parts = []; sheet = record self.old.sheet { buffers = self.old.sheet.buffers ++ record { group = spot.group; name = making.name (values_in values.old); content = self.old.parts; at = spot.at } ∷ [] } }) }
    {
        let content = mem::replace(&mut self.parts, List::new(self.alloc));
        self.sheet.buffers.push(Buffer {
            group: spot.group,
            name: values.take_name(),
            content,
            at: spot.at,
        })
    }
}
