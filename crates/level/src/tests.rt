//! Levels written, read and printed.

use crate::level::Level;
use crate::range::{LEVEL_LEAST, LEVEL_MOST};
use crate::read::read_level;
use crate::write::write_level;
use refusal::hands::{SliceFault, TypingFault};
use refusal::refusal::Refusal;
use std::process::Abort;
use std::test::Fail;

fn same(rt: &impl Abort, level: i32, text: &[u8]) -> Result<(), Fail> {
    let mut out = [b'_'; 12];
    let size = write_level(level, &mut out)?;
    assert_eq!(rt; size, text.len());
    assert!(rt; out.starts_with(text));
    assert_eq!(rt; out[11], b'_');
    assert_eq!(rt; read_level(text)?, level);
    Ok(())
}

#[test]
fn written_and_read(rt: HostRuntime) -> Result<(), Fail> {
    same(&rt, -35, b"-0.35")?;
    same(&rt, -5, b"-0.05")?;
    same(&rt, -1, b"-0.01")?;
    same(&rt, 0, b"0.00")?;
    same(&rt, 99, b"0.99")?;
    same(&rt, LEVEL_LEAST, b"-100000.00")?;
    same(&rt, LEVEL_MOST, b"100000.00")
}

fn no_level(rt: &impl Abort, text: &[u8]) {
    assert_eq!(rt; read_level(text), Err(TypingFault::NotALevel));
}

#[test]
fn not_levels(rt: HostRuntime) {
    no_level(&rt, b"-0.00");
    no_level(&rt, b"007.00");
    no_level(&rt, b"");
    no_level(&rt, b"1.5");
    no_level(&rt, b"+1.00");
    no_level(&rt, b"100000.01");
    no_level(&rt, &[b'9'; 81]);
    no_level(&rt, &[255, 128]);
}

#[test]
fn left_alone(rt: HostRuntime) {
    let mut out = [b'_'; 4];
    assert_eq!(rt;
        write_level(LEVEL_MOST + 1, &mut out),
        Err(Refusal::Typing(TypingFault::OutOfRange))
    );
    assert_eq!(rt;
        write_level(-35, &mut out),
        Err(Refusal::Slice(SliceFault::TooShort))
    );
    assert_eq!(rt; out, [b'_'; 4]);
}

#[test]
fn printed(rt: HostRuntime) -> Result<(), Fail> {
    let top = Level::try_from(-35)?;
    assert_eq!(rt; i32::from(top), -35);
    let line = format!(in rt.alloc(); "top {top} opened")?;
    assert_eq!(rt; line.as_str(), "top -0.35 opened");
    Ok(())
}
