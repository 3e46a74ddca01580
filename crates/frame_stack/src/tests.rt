use super::*;
use std::alloc::Global;
use std::test::Fail;
use stx_base::{Copied, List, Memory, Name, Text};
use stxpath_values::Atom;

fn name(alloc: Global, local: &str) -> Result<Name, Memory> {
    Ok(Name {
        uri: Text::new(alloc),
        local: Text::of(alloc, local)?,
        prefix: Text::new(alloc),
    })
}

fn whole(alloc: Global, n: i64) -> Result<List<Atom>, Memory> {
    let mut value = List::new(alloc);
    value.push(Atom::Whole(n))?;
    Ok(value)
}

fn shown(value: &List<Atom>) -> Option<i64> {
    match value.as_slice() {
        [Atom::Whole(n)] => Some(*n),
        _ => None,
    }
}

fn body(alloc: Global, level: u32) -> Frame {
    Frame::Body {
        template: 0,
        alternative: 0,
        pc: 7,
        locals: Locals::new(alloc),
        level,
        spent: false,
    }
}

#[test]
fn levels(rt: HostRuntime) -> Result<(), Fail> {
    let alloc = rt.alloc();
    let mut frames = Frames::new(alloc);
    assert_eq!(rt; frames.push(2, body(alloc, 1)), Ok(()));
    assert_eq!(rt;
        frames.push(2, Frame::Region { asked: 3, level: 1 }),
        Ok(())
    );
    assert_eq!(rt; frames.push(2, body(alloc, 1)), Ok(()));
    assert_eq!(rt; frames.push(2, body(alloc, 1)), Err(FrameFault::Instances));
    assert_eq!(rt; frames.count(), 3);
    assert_eq!(rt; frames.push(3, body(alloc, 1)), Ok(()));
    assert!(rt; matches!(frames.pop(), Some(Frame::Body { level: 1, .. })));
    assert_eq!(rt; frames.push(2, body(alloc, 2)), Ok(()));
    assert_eq!(rt;
        frames.push(2, Frame::Attributes { next: 0, asked: 4 }),
        Ok(())
    );
    assert_eq!(rt; frames.push(2, body(alloc, 1)), Ok(()));
    assert_eq!(rt; frames.count(), 6);
    assert!(rt; matches!(frames.at(1), Frame::Region { asked: 3, level: 1 }));
    assert!(rt; matches!(frames.pop(), Some(Frame::Body { level: 1, .. })));
    assert!(rt; matches!(frames.top(), Some(Frame::Attributes { .. })));
    Ok(())
}

#[test]
fn replaced(rt: HostRuntime) -> Result<(), Fail> {
    let alloc = rt.alloc();
    let mut frames = Frames::new(alloc);
    assert_eq!(rt; frames.push(1, Frame::Loop { turn: 1 }), Ok(()));
    let old = frames.replace(0, Frame::Loop { turn: 2 });
    assert!(rt; matches!(old, Frame::Loop { turn: 1 }));
    assert!(rt; matches!(frames.at(0), Frame::Loop { turn: 2 }));
    let copy = frames.at(0).copy(alloc)?;
    assert!(rt; matches!(copy, Frame::Loop { turn: 2 }));
    Ok(())
}

#[test]
fn locals(rt: HostRuntime) -> Result<(), Fail> {
    let alloc = rt.alloc();
    let mut locals = Locals::new(alloc);
    for n in 0..4i64 {
        locals.push(name(alloc, "n")?, whole(alloc, n)?)?;
    }
    locals.push(name(alloc, "m")?, whole(alloc, 9)?)?;
    assert_eq!(rt; locals.len(), 5);
    assert_eq!(rt; locals.name(4).local.as_str(), "m");
    locals.set(4, whole(alloc, 8)?);
    let copy = locals.copy(alloc)?;
    assert_eq!(rt; copy.len(), 5);
    assert_eq!(rt; shown(copy.value(4)), Some(8));
    locals.cut(1);
    assert_eq!(rt; locals.len(), 1);
    assert_eq!(rt; shown(locals.value(0)), Some(0));
    Ok(())
}

#[test]
fn grown(rt: HostRuntime) -> Result<(), Fail> {
    let alloc = rt.alloc();
    let mut frames = Frames::new(alloc);
    assert_eq!(rt; frames.push(1, body(alloc, 1)), Ok(()));
    assert_eq!(rt; frames.count(), 1);
    assert_eq!(rt;
        frames.push_local(0, name(alloc, "n")?, whole(alloc, 5)?),
        Ok(())
    );
    assert_eq!(rt; frames.count(), 1);
    frames.set_pc(0, 8);
    assert_eq!(rt; frames.count(), 1);
    assert!(rt; matches!(frames.at(0), Frame::Body { pc: 8, locals, .. } if locals.len() == 1));
    Ok(())
}
