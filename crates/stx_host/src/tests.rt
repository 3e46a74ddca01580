use crate::act::{Act, Call, Doc, Fail, Got, Lane, Opened, Put};
use crate::copy::{Copying, copy_main, write_all};
use crate::host::Host;
use crate::mem_host::MemHost;
use crate::real_host::RealHost;
use std::alloc::Global;
use std::fs::OpenOptions;
use std::io::{ErrorKind, Read, Write};
use std::process::Abort;
use std::test::Fail as Failure;
use std::{fs, io};
use stx_base::{List, Memory, Text};

const MAIN: &[u8] = b"<main/>";

fn list(alloc: Global, bytes: &[u8]) -> Result<List<u8>, Memory> {
    Ok(List::from_vec(bytes.to_vec(alloc)?))
}

/// A host with the documents `a`, `b` and a second `a`, and the main document.
fn memory(
    alloc: Global,
    cuts: &[u32],
    fails: &[Fail],
    acts: usize,
    bytes: usize,
) -> Result<MemHost, Memory> {
    let mut docs = List::new(alloc);
    for (name, text) in [("a", "first"), ("b", ""), ("a", "second")] {
        docs.push(Doc {
            name: Text::of(alloc, name)?,
            bytes: list(alloc, text.as_bytes())?,
        })?;
    }
    let cuts = List::from_vec(cuts.to_vec(alloc)?);
    let fails = List::from_vec(fails.to_vec(alloc)?);
    MemHost::new(alloc, list(alloc, MAIN)?, docs, cuts, fails, acts, bytes)
}

/// Opens a document, reads it to its end in small pieces, and closes it.
fn reads<H: Host>(rt: &impl Abort, host: &mut H, name: &Text, want: &[u8]) {
    let opened = host.open(name);
    let Opened::Id(id) = opened else {
        assert!(rt; false);
        return;
    };
    let mut room = [0u8; 4];
    let mut at = 0usize;
    let mut ended = false;
    for _ in 0..100 {
        match host.read(id, &mut room) {
            Got::Bytes(count) => {
                assert!(rt; at <= want.len());
                assert!(rt; want[at..].starts_with(&room[..count]));
                at += count;
            }
            Got::End => {
                ended = true;
                break;
            }
            Got::Failed => break,
        }
    }
    host.close(id);
    assert!(rt; ended);
    assert_eq!(rt; at, want.len());
}

/// Makes a call of a kind, and says whether it failed.
fn fails<H: Host>(host: &mut H, call: Call, name: &Text) -> bool {
    let mut room = [0u8; 4];
    match call {
        Call::Open => match host.open(name) {
            Opened::Id(id) => {
                host.close(id);
                false
            }
            answer => answer == Opened::Failed,
        },
        Call::ReadDoc => match host.open(name) {
            Opened::Id(id) => {
                let got = host.read(id, &mut room);
                host.close(id);
                got == Got::Failed
            }
            _ => false,
        },
        Call::ReadMain => host.read(0, &mut room) == Got::Failed,
        Call::Write => host.write(Lane::Note, b"x") == Put::Failed,
    }
}

#[test]
fn memory_gives_its_documents(rt: HostRuntime) -> Result<(), Failure> {
    let alloc = rt.alloc();
    let mut host = memory(alloc, &[2, 0], &[], 20, 9)?;
    reads(&rt, &mut host, &Text::of(alloc, "a")?, b"first");
    reads(&rt, &mut host, &Text::of(alloc, "b")?, b"");
    assert_eq!(rt; host.open(&Text::of(alloc, "c")?), Opened::Absent);
    assert_eq!(rt; copy_main(&mut host), Copying::Whole);
    assert!(rt; write_all(&mut host, Lane::Note, b"note"));
    assert_eq!(rt; host.out.as_slice(), MAIN);
    assert_eq!(rt; host.note.as_slice(), b"note".as_slice());
    let want = [
        Act::Open {
            doc: Some(0),
            id: 1,
        },
        Act::Read { id: 1, got: 4 },
        Act::Read { id: 1, got: 1 },
        Act::Read { id: 1, got: 0 },
        Act::Close(1),
        Act::Open {
            doc: Some(1),
            id: 1,
        },
        Act::Read { id: 1, got: 0 },
        Act::Close(1),
        Act::Open { doc: None, id: 0 },
        Act::Read { id: 0, got: 2 },
        Act::Write {
            lane: Lane::Out,
            len: 2,
        },
        Act::Read { id: 0, got: 1 },
        Act::Write {
            lane: Lane::Out,
            len: 1,
        },
        Act::Read { id: 0, got: 4 },
        Act::Write {
            lane: Lane::Out,
            len: 4,
        },
        Act::Read { id: 0, got: 0 },
        Act::Write {
            lane: Lane::Note,
            len: 4,
        },
    ];
    assert_eq!(rt; host.log.as_slice(), want.as_slice());
    Ok(())
}

#[test]
fn memory_fails_where_listed(rt: HostRuntime) -> Result<(), Failure> {
    let alloc = rt.alloc();
    let name = Text::of(alloc, "a")?;
    for call in [Call::Open, Call::ReadDoc, Call::ReadMain, Call::Write] {
        for nth in 1..4u64 {
            let mut host = memory(alloc, &[], &[Fail { call, nth }], 20, 9)?;
            for turn in 1..4u64 {
                assert_eq!(rt;
                    fails(&mut host, call, &name),
                    turn == nth,
                    "{call:?} {nth} {turn}"
                );
            }
        }
    }
    Ok(())
}

/// Each call after the first fails.
fn fails_past_one<H: Host>(rt: &impl Abort, host: &mut H, name: &Text) {
    let opened = host.open(name);
    let Opened::Id(id) = opened else {
        assert!(rt; false);
        return;
    };
    let mut room = [0u8; 4];
    let got = host.read(id, &mut room);
    host.close(id);
    assert_eq!(rt; got, Got::Failed);
    assert_eq!(rt; host.read(0, &mut room), Got::Failed);
    assert_eq!(rt; host.open(name), Opened::Failed);
    assert_eq!(rt; host.write(Lane::Note, b"two"), Put::Failed);
}

#[test]
fn memory_fails_without_room(rt: HostRuntime) -> Result<(), Failure> {
    let alloc = rt.alloc();
    let mut host = memory(alloc, &[], &[], 1, 3)?;
    assert_eq!(rt; host.write(Lane::Out, b"four"), Put::Failed);
    fails_past_one(&rt, &mut host, &Text::of(alloc, "a")?);
    assert_eq!(rt; host.log.len(), 1);
    assert_eq!(rt; (host.faults.doc, host.faults.main), (2, 1));
    assert_eq!(rt; (host.faults.out, host.faults.note), (1, 1));
    Ok(())
}

#[test]
fn a_copy_tells_what_failed(rt: HostRuntime) -> Result<(), Failure> {
    let alloc = rt.alloc();
    for (call, nth, answer, written) in [
        (Call::ReadMain, 3, Copying::Unread, 4),
        (Call::Write, 2, Copying::Unwritten, 2),
        (Call::Open, 1, Copying::Whole, 7),
    ] {
        let mut host = memory(alloc, &[2, 2, 2, 2], &[Fail { call, nth }], 20, 9)?;
        assert_eq!(rt; copy_main(&mut host), answer);
        assert_eq!(rt; host.out.as_slice(), &MAIN[..written]);
    }
    Ok(())
}

/// Is interrupted, gives one byte, ends, and fails from then on.
#[derive(Drop)]
struct Source {
    turn: u8,
}

impl Read for Source {
    fn read(&mut self, room: &mut [u8]) -> io::Result<usize> {
        self.turn = self.turn.saturating_add(1);
        match self.turn {
            1 => Err(ErrorKind::Interrupted.into()),
            2 if !room.is_empty() => {
                room[0] = b'x';
                Ok(1)
            }
            3 => Ok(0),
            _ => Err(ErrorKind::Other.into()),
        }
    }
}

/// Is interrupted, takes one byte, takes none, and fails from then on.
#[derive(Drop)]
struct Sink {
    turn: u8,
}

impl Write for Sink {
    fn write(&mut self, bytes: &[u8]) -> io::Result<usize> {
        self.turn = self.turn.saturating_add(1);
        match self.turn {
            1 => Err(ErrorKind::Interrupted.into()),
            2 => Ok(bytes.len().min(1)),
            3 => Ok(0),
            _ => Err(ErrorKind::BrokenPipe.into()),
        }
    }

    fn flush(&mut self) -> io::Result<()> {
        Ok(())
    }
}

#[test]
fn streams_are_tried_again_and_counted(rt: HostRuntime) -> Result<(), Failure> {
    let mut host = RealHost::new(
        rt.alloc(),
        &rt,
        Source { turn: 0 },
        Sink { turn: 0 },
        Sink { turn: 0 },
    );
    let mut room = [0u8; 4];
    for (turn, want) in [Got::Bytes(1), Got::End, Got::Failed, Got::Failed]
        .into_iter()
        .enumerate()
    {
        assert_eq!(rt; host.read(0, &mut room), want, "{turn}");
    }
    assert_eq!(rt; room, *b"x\0\0\0");
    for lane in [Lane::Out, Lane::Note] {
        for (turn, want) in [Put::Took(1), Put::Failed, Put::Failed]
            .into_iter()
            .enumerate()
        {
            assert_eq!(rt; host.write(lane, b"ab"), want, "{turn}");
        }
    }
    assert_eq!(rt; (host.faults.doc, host.faults.main), (0, 2));
    assert_eq!(rt; (host.faults.out, host.faults.note), (2, 2));
    Ok(())
}

const FOLDER: &str = "stx_host_test";

#[test]
fn files_are_read_and_told_apart(rt: HostRuntime) -> Result<(), Failure> {
    let alloc = rt.alloc();
    let _ = fs::remove_dir_all(&rt, FOLDER);
    fs::create_dir(&rt, FOLDER)?;
    fs::write(&rt, "stx_host_test/a.xml", b"<a>file</a>".as_slice())?;
    let full = OpenOptions::new().write(true).open(&rt, "/dev/full")?;
    let input = fs::File::open(&rt, "stx_host_test/a.xml")?;
    let mut host = RealHost::new(alloc, &rt, input, Vec::new(alloc), full);
    let a = Text::of(alloc, "stx_host_test/a.xml")?;
    reads(&rt, &mut host, &a, b"<a>file</a>");
    let Opened::Id(first) = host.open(&a) else {
        return Err(Failure::from("not opened"));
    };
    let second = host.open(&a);
    assert_eq!(rt; (first, second), (1, Opened::Id(2)));
    host.close(first);
    assert_eq!(rt; host.open(&a), Opened::Id(1));
    for (name, want) in [
        ("stx_host_test/b.xml", Opened::Absent),
        ("", Opened::Absent),
        ("stx_host_test/a.xml/b", Opened::Failed),
        ("stx_host_test/\0", Opened::Failed),
    ] {
        assert_eq!(rt; host.open(&Text::of(alloc, name)?), want, "{name:?}");
    }
    assert!(rt; fails(&mut host, Call::ReadDoc, &Text::of(alloc, FOLDER)?));
    assert_eq!(rt; copy_main(&mut host), Copying::Whole);
    assert_eq!(rt; host.out.as_slice(), b"<a>file</a>".as_slice());
    assert_eq!(rt; host.write(Lane::Note, b"note"), Put::Failed);
    assert_eq!(rt; (host.faults.doc, host.faults.main), (3, 0));
    assert_eq!(rt; (host.faults.out, host.faults.note), (0, 1));
    fs::remove_dir_all(&rt, FOLDER)?;
    Ok(())
}
