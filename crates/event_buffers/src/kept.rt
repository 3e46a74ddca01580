ghost use Rattle.std.specs.Prelude.{◌≡◌, ◌+◌, ◌<◌, ◌≤◌, ◌++◌, None, OnOk, OnErr, vec_capacity, vec_len};
ghost use Rattle.std.specs.Option.{option_map, option_to_list};
ghost use Rattle.event_buffers.specs.Kept.{added, kept, kept_beside};
ghost use Rattle.event_buffers.specs.declared.kept.Kept.TheVariants.{Start};
ghost use Rattle.result_writer.specs.Target.{behind, fault};

use result_writer::{Opened, SettledTag};
use stx_base::{Memory, Part, Text};

/// What a buffer keeps of the parts put into it.
#[derive(Debug, Drop)]
pub enum Kept {
    /// A start tag with its attributes, once it is settled. Of its scope only what the tag declares is kept.
    Start(SettledTag),
    /// The end of the innermost element.
    End,
    Chars(Text),
    CData(Text),
    Comment(Text),
    Pi { target: Text, text: Text },
}

/// Keeps a part that has no fault, once it and the tag before it are settled. After a refusal the part is dropped, and all else is
/// unchanged.
pub fn keep(items: &mut Vec<Kept>, target: &mut Opened, part: Part) -> Result<(), Memory>
    requires { fault target.old.limit target.old.left part ≡ None }
    ensures ok { OnOk result (items.new.items ≡ items.old.items ++ added target.old.left part) }
    ensures left { OnOk result (target.new ≡ behind target.old part) }
    ensures err { OnErr result (items.new.items ≡ items.old.items) }
    ensures unmoved { OnErr result (target.new ≡ target.old) }
{
    items.reserve(2)?;
    let settled = target.take_settling(part)?;
    push_tag(items, settled.tag);
    push_part(items, settled.part);
    Ok(())
}

fn push_tag(items: &mut Vec<Kept>, tag: Option<SettledTag>)
    requires { vec_len items.old + 1 ≤ vec_capacity items.old }
    ensures items { items.new.items ≡ items.old.items ++ option_to_list (option_map Start tag) }
    ensures len { vec_len items.new ≤ vec_len items.old + 1 }
    ensures capacity { vec_capacity items.new ≡ vec_capacity items.old }
{
    if let Some(tag) = tag {
        items.push_reserved(Kept::Start(tag));
    }
}

fn push_part(items: &mut Vec<Kept>, part: Option<Part>)
    requires { vec_len items.old + 1 ≤ vec_capacity items.old }
    ensures { items.new.items ≡ items.old.items ++ option_to_list (kept_beside part) }
{
    let Some(part) = part else {
        return;
    };
    if let Some(item) = kept_itself(part) {
        items.push_reserved(item);
    }
}

/// What is kept of a part itself: nothing of a start and of an attribute, which are kept as a tag.
fn kept_itself(part: Part) -> Option<Kept>
    ensures { result ≡ kept part }
{
    match part {
        Part::Start { .. } | Part::Attribute { .. } => None,
        Part::End { .. } => Some(Kept::End),
        Part::Chars { text } => Some(Kept::Chars(text)),
        Part::CData { text } => Some(Kept::CData(text)),
        Part::Comment { text } => Some(Kept::Comment(text)),
        Part::Pi { target, text } => Some(Kept::Pi { target, text }),
    }
}
