//! Each allocation is refused once: it is reported, nothing was written until then, and a second
//! call writes the whole text.
use super::packets::{burst, change, whole};
use super::{InPieces, TABLE, TEXT, file};
use capture_engines::map_capture;
use engines::{Device, EngineFault};
use std::alloc::Global;
use std::test::Fail;

/// How much is written at most.
const ROOM: usize = 2048;

/// Maps the capture of these packets into an array, and answers how many bytes it took.
fn map_into(alloc: Global, packets: &[&[u8]], text: &mut [u8]) -> Result<usize, EngineFault> {
    let bytes = file(alloc, packets)?;
    let room = text.len();
    let mut reader = Device::new(InPieces {
        rest: &bytes,
        size: 64,
    });
    let mut writer = Device::new(text);
    let done = map_capture(alloc, &mut reader, &mut writer);
    reader.into_inner();
    let left = writer.into_inner().len();
    done?;
    Ok(room.saturating_sub(left))
}

/// Whether the capture of these packets is mapped so, again where an allocation fails, at which
/// nothing is to be written.
fn is_mapped(
    rt: &impl Print,
    alloc: Global,
    packets: &[&[u8]],
    wanted: &[u8],
) -> Result<bool, Fail> {
    let mut text = [0u8; ROOM];
    let mut taken = map_into(alloc, packets, &mut text);
    if taken == Err(EngineFault::OutOfMemory) {
        println!(rt; "refused")?;
        if text.iter().any(|byte| *byte > 0) {
            return Ok(false);
        }
        taken = map_into(alloc, packets, &mut text);
    }
    Ok(taken == Ok(wanted.len()) && text.starts_with(wanted))
}

#[test]
fn registrations_are_mapped(rt: HostRuntime) -> Result<(), Fail> {
    assert!(rt;
        is_mapped(
            &rt,
            rt.alloc(),
            &[burst(), whole(), burst(), change()],
            TEXT
        )?
    );
    Ok(())
}

#[test]
fn what_was_seen_is_told(rt: HostRuntime) -> Result<(), Fail> {
    assert!(rt; is_mapped(&rt, rt.alloc(), &[burst(), burst()], TABLE)?);
    Ok(())
}
