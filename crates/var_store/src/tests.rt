use super::*;
use std::alloc::Global;
use std::test::Fail;
use stx_base::{List, Memory, Name, Text};
use stxpath_values::Atom;

fn name(alloc: Global, local: &str) -> Result<Name, Memory> {
    Ok(Name {
        uri: Text::new(alloc),
        local: Text::of(alloc, local)?,
        prefix: Text::new(alloc),
    })
}

fn whole(alloc: Global, n: i64) -> Result<List<Atom>, Memory> {
    let mut value = List::new(alloc);
    value.push(Atom::Whole(n))?;
    Ok(value)
}

fn shown(value: Option<&List<Atom>>) -> Option<i64> {
    match value?.as_slice() {
        [Atom::Whole(n)] => Some(*n),
        _ => None,
    }
}

#[test]
fn copies(rt: HostRuntime) -> Result<(), Fail> {
    let alloc = rt.alloc();
    let n = name(alloc, "n")?;
    let mut store = Store::new(alloc, 1)?;
    store.declare(0, name(alloc, "n")?, whole(alloc, 1)?)?;
    assert_eq!(rt; shown(store.get(0, &n)), Some(1));
    assert_eq!(rt; store.assign(0, &n, whole(alloc, 2)?), Ok(()));
    assert_eq!(rt; store.slot(0, &n), Some(0));
    assert_eq!(rt; shown(Some(store.at(0, 0))), Some(2));
    store.enter_group(0)?;
    assert_eq!(rt; shown(store.get(0, &n)), None);
    assert_eq!(rt; shown(store.older(0, &n)), Some(2));
    assert_eq!(rt;
        store.assign(0, &n, whole(alloc, 3)?),
        Err(StoreFault::NoVariable)
    );
    store.leave_group(0);
    assert_eq!(rt; shown(store.get(0, &n)), Some(2));
    Ok(())
}
