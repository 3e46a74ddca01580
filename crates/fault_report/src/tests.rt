use super::*;
use std::alloc::Global;
use std::process::Abort;
use std::test::Fail;
use stx_base::{RunCode, SheetCode, SheetFault, Text, XmlFault, XmlKind};

fn says(
    rt: &impl Abort,
    alloc: Global,
    outcome: Outcome,
    code: u8,
    said: &str,
) -> Result<(), Fail> {
    assert_eq!(rt; line(alloc, &outcome)?.as_str(), said);
    assert_eq!(rt; status(&outcome), code);
    Ok(())
}

#[test]
fn every_outcome(rt: HostRuntime) -> Result<(), Fail> {
    let alloc = rt.alloc();
    says(&rt, alloc, Outcome::Done, 0, "")?;
    let file = Text::of(alloc, "s.stx")?;
    says(
        &rt,
        alloc,
        Outcome::Run {
            file,
            code: RunCode::Instances,
            offset: 103,
        },
        1,
        "stx: s.stx: Instances at 103\n",
    )?;
    says(
        &rt,
        alloc,
        Outcome::Usage,
        2,
        "stx: usage: stx SHEET [NAME=VALUE]... [--fuel N] [--lexeme N] [--instances N] [--check] [--sample N]\n",
    )?;
    let file = Text::of(alloc, "t.stx")?;
    says(
        &rt,
        alloc,
        Outcome::Sheet(SheetFault {
            file,
            code: SheetCode::NoDocument,
            offset: 0,
        }),
        3,
        "stx: t.stx: NoDocument at 0\n",
    )?;
    let file = Text::of(alloc, "-")?;
    says(
        &rt,
        alloc,
        Outcome::Xml {
            file,
            fault: XmlFault {
                kind: XmlKind::Truncated,
                offset: 8,
            },
        },
        4,
        "stx: -: Truncated at 8\n",
    )?;
    let file = Text::of(alloc, "-")?;
    says(
        &rt,
        alloc,
        Outcome::Host {
            file,
            fault: HostFault::Read,
            offset: 2,
        },
        5,
        "stx: -: Read at 2\n",
    )?;
    let file = Text::of(alloc, "s.stx")?;
    says(
        &rt,
        alloc,
        Outcome::Fuel { file, offset: 100 },
        6,
        "stx: s.stx: Fuel at 100\n",
    )?;
    says(&rt, alloc, Outcome::Memory, 7, "stx: out of memory\n")
}
