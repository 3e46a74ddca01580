//! The groups and templates that rows set: `: group PARENT` is one more group, whose parent is named by its number, the root's being 0.
//! `: template GROUP PATTERN` is one more template, with `priority N` (in hundredths), `group`, `global` and `public` behind it, and
//! `: templates GROUP PATTERN ..` is one for each pattern.

ghost use Rattle.std.specs.Prelude.{◌≡◌, All, true, nat_le, IfOk, OnOk};
ghost use Rattle.std.specs.List.{list_all};
ghost use Rattle.choice_rows.specs.Bare.{IsBare, IsUnnamed, is_few, is_plain_step, is_plain};
ghost use Rattle.stxpath_syntax.specs.Readable.{IsReadablePattern};

use rows::{Row, Setting, Trouble, text_of};
use sheet_model::{Group, Pass, Template, Visibility};
use std::alloc::Global;
use stx_base::{List, Place};
use stxpath_syntax::{Alternative, Dialect, ParseFault, PathStep, Pattern, read_pattern};

/// Where all of it stands.
const AT: Place = Place { file: 0, offset: 0 };

fn number_of(written: &str) -> Result<u32, Trouble> {
    match written.parse::<u32>() {
        Ok(number) => Ok(number),
        Err(_) => Err(Trouble::Row("a number is wanted")),
    }
}

fn group_of(parent: Option<u32>) -> Group
    ensures { IsUnnamed result }
{
    Group {
        parent,
        name: None,
        pass: Pass::All,
        at: AT,
    }
}

/// The root, and the groups that are set.
pub fn groups_of(alloc: Global, row: &Row) -> Result<List<Group>, Trouble>
    ensures { IfOk result (All IsUnnamed) }
{
    let mut groups = List::new(alloc);
    groups.push(group_of(None))?;
    for setting in row.settings {
        if setting.key.as_str() == "group" {
            let parent = number_of(setting.value.as_str())?;
            groups.push(group_of(Some(parent)))?;
        }
    }
    Ok(groups)
}

/// The templates that are set.
pub fn templates_of(alloc: Global, row: &Row, groups: usize) -> Result<List<Template>, Trouble>
    ensures { IfOk result (All (IsBare groups)) }
{
    let mut templates = List::new(alloc);
    let done = add_templates(alloc, row.settings, groups, &mut templates);
    match done {
        Ok(()) => Ok(templates),
        Err(trouble) => Err(trouble),
    }
}

fn add_templates(
    alloc: Global,
    settings: &[Setting],
    groups: usize,
    templates: &mut List<Template>,
) -> Result<(), Trouble>
    requires { All (IsBare groups) templates.old }
    ensures { OnOk result (All (IsBare groups) templates.new) }
{
    for setting in settings {
        let value = setting.value.as_str();
        match setting.key.as_str() {
            "template" => add_template(alloc, value, groups, templates)?,
            "templates" => add_several(alloc, value, groups, templates)?,
            _ => {}
        }
    }
    Ok(())
}

fn add_template(
    alloc: Global,
    written: &str,
    groups: usize,
    templates: &mut List<Template>,
) -> Result<(), Trouble>
    requires { All (IsBare groups) templates.old }
    ensures { OnOk result (All (IsBare groups) templates.new) }
{
    let (group, rest) = written.split_once(' ').unwrap_or((written, ""));
    let (pattern, flags) = rest.split_once(' ').unwrap_or((rest, ""));
    let flags = flags_of(flags)?;
    let template = template_of(alloc, number_of(group)?, pattern, flags, groups)?;
    Ok(templates.push(template)?)
}

fn add_several(
    alloc: Global,
    written: &str,
    groups: usize,
    templates: &mut List<Template>,
) -> Result<(), Trouble>
    requires { All (IsBare groups) templates.old }
    ensures { OnOk result (All (IsBare groups) templates.new) }
{
    let (group, patterns) = written.split_once(' ').unwrap_or((written, ""));
    let group = number_of(group)?;
    for pattern in patterns.split_whitespace() {
        let template = template_of(alloc, group, pattern, Flags::none(), groups)?;
        templates.push(template)?;
    }
    Ok(())
}

/// What else is said of a template.
#[derive(Clone, Copy)]
struct Flags {
    priority: Option<i32>,
    visibility: Visibility,
    public: bool,
}

impl Flags {
    fn none() -> Flags {
        Flags {
            priority: None,
            visibility: Visibility::Local,
            public: false,
        }
    }
}

fn flags_of(written: &str) -> Result<Flags, Trouble> {
    let mut flags = Flags::none();
    for word in written.split_whitespace() {
        match word {
            "priority" => {}
            "group" => flags.visibility = Visibility::Group,
            "global" => flags.visibility = Visibility::Global,
            "public" => flags.public = true,
            _ => flags.priority = Some(priority_of(word)?),
        }
    }
    Ok(flags)
}

fn priority_of(written: &str) -> Result<i32, Trouble> {
    match written.parse::<i32>() {
        Ok(priority) => Ok(priority),
        Err(_) => Err(Trouble::Row("an unknown word")),
    }
}

fn template_of(
    alloc: Global,
    group: u32,
    pattern: &str,
    flags: Flags,
    groups: usize,
) -> Result<Template, Trouble>
    ensures { IfOk result (IsBare groups) }
{
    if group as usize >= groups {
        return Err(Trouble::Row("a group that isn't there"));
    }
    let pattern = pattern_of(alloc, pattern)?;
    Ok(Template {
        group,
        pattern,
        priority: flags.priority,
        visibility: flags.visibility,
        public: flags.public,
        new_scope: false,
        params: List::new(alloc),
        body: List::new(alloc),
        at: AT,
    })
}

/// A pattern that is short and has no predicate.
fn pattern_of(alloc: Global, written: &str) -> Result<Pattern, Trouble>
    ensures readable { IfOk result (λ pattern. IsReadablePattern pattern.alternatives) }
    ensures plain { IfOk result (λ pattern. is_plain pattern ≡ true) }
{
    let text = text_of(alloc, written)?;
    match read_pattern(alloc, &text, &List::new(alloc), Dialect::OneOne) {
        Ok(pattern) => plain(pattern),
        Err(fault) => Err(unread(fault)),
    }
}

fn unread(_fault: ParseFault) -> Trouble {
    Trouble::Row("a pattern that isn't read")
}

fn plain(pattern: Pattern) -> Result<Pattern, Trouble>
    ensures same { IfOk result (λ same. same ≡ pattern) }
    ensures plain { IfOk result (λ same. is_plain same ≡ true) }
{
    if is_plain(&pattern) {
        Ok(pattern)
    } else {
        drop(pattern);
        Err(Trouble::Row("a pattern that is too long, or has predicates"))
    }
}

fn is_plain(pattern: &Pattern) -> bool
    ensures { result ≡ is_plain pattern.now }
{
    is_short(pattern.alternatives.len()) && are_few(pattern.alternatives.as_slice())
}

fn is_short(length: usize) -> bool
    ensures { result ≡ nat_le length 16 }
{
    length <= 16
}

fn are_few(alternatives: &[Alternative]) -> bool
    ensures { result ≡ list_all is_few alternatives.now }
{
    alternatives.iter().all(|alternative| is_few(alternative))
}

fn is_few(alternative: &Alternative) -> bool
    ensures { result ≡ is_few alternative.now }
{
    match alternative {
        Alternative::Root => true,
        Alternative::Steps(steps) => is_short(steps.len()) && are_plain_steps(steps.as_slice()),
    }
}

fn are_plain_steps(steps: &[PathStep]) -> bool
    ensures { result ≡ list_all is_plain_step steps.now }
{
    steps.iter().all(|step| is_plain_step(step))
}

fn is_plain_step(step: &PathStep) -> bool
    ensures { result ≡ is_plain_step step.now }
{
    step.predicates.is_empty()
}
