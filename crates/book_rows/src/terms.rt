//! Patterns that makers refuse.
use hl_base::{List, Memory, Text};
use query_terms::{ListMaker, MakeFault, Maker, RegexMaker};
use std::alloc::Global;
use std::test::Fail;

/// The regex of a pattern, if a maker makes it.
fn is_made<M: Maker>(alloc: Global, pattern: &str, maker: &mut M) -> Result<bool, Memory> {
    let pattern = Text::copied(alloc, pattern)?;
    match maker.make(alloc, &pattern) {
        Ok(_regex) => Ok(true),
        Err(MakeFault::Refused) => Ok(false),
        Err(MakeFault::Memory) => Ok(false),
    }
}

#[test]
fn makers_refuse_and_count(rt: HostRuntime) -> Result<(), Fail> {
    let mut maker = RegexMaker::new();
    assert!(rt; is_made(rt.alloc(), "a.c", &mut maker)?);
    assert!(rt; !is_made(rt.alloc(), "a{9999}{9999}", &mut maker)?);
    assert!(rt; !is_made(rt.alloc(), "(", &mut maker)?);
    assert_eq!(rt; maker.refusals(), 2);
    let mut refused = Vec::new(rt.alloc());
    refused.push(Text::copied(rt.alloc(), "a.c")?)?;
    let mut lister = ListMaker::new(List::from_vec(refused));
    assert!(rt; !is_made(rt.alloc(), "a.c", &mut lister)?);
    assert!(rt; is_made(rt.alloc(), "a.d", &mut lister)?);
    assert!(rt; !is_made(rt.alloc(), "a.c", &mut lister)?);
    assert_eq!(rt; lister.refusals(), 2);
    Ok(())
}
