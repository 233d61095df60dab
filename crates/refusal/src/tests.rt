//! Refusals printed.

use crate::hands::{SliceFault, TreeFault, TypingFault};
use crate::refusal::Refusal;
use std::alloc::Global;
use std::process::Abort;
use std::test::Fail;

fn prints(rt: &impl Abort, heap: Global, refusal: Refusal, line: &str) -> Result<(), Fail> {
    let printed = format!(in heap; "{refusal}")?;
    assert_eq!(rt; printed.as_str(), line);
    Ok(())
}

#[test]
fn printed(rt: HostRuntime) -> Result<(), Fail> {
    prints(
        &rt,
        rt.alloc(),
        Refusal::Typing(TypingFault::Command),
        "refused 25",
    )?;
    prints(
        &rt,
        rt.alloc(),
        Refusal::Tree(TreeFault::Unnamed { node: 7 }),
        "refused 19 node 7",
    )?;
    prints(
        &rt,
        rt.alloc(),
        Refusal::Tree(TreeFault::Spoilt { node: 2, place: 0 }),
        "refused 14 node 2 entry 0",
    )?;
    prints(
        &rt,
        rt.alloc(),
        Refusal::Slice(SliceFault::Record { place: 9 }),
        "refused 23 entry 9",
    )
}
