//! The units of times: the byte of option 9, a time's two halves, and its nanoseconds.
use super::records_of;
use capture::PcapngReader;
use std::alloc::Global;
use std::test::Fail;

/// A section, an interface with this resolution, and a packet at this time.
fn file_at(alloc: Global, resolution: u8, high: u32, low: u32) -> Result<Vec<u8>, Fail> {
    let mut file = Vec::new(alloc);
    file.extend_from_slice(&[
        0x0a, 0x0d, 0x0d, 0x0a, 0, 0, 0, 28, 0x1a, 0x2b, 0x3c, 0x4d, 0, 1, 0, 0, //
        0, 0, 0, 0, 0, 0, 0, 0, 0, 0, 0, 28, //
        0, 0, 0, 1, 0, 0, 0, 28, 1, 0x11, 0, 0, 0, 0, 0, 0, 0, 9, 0, 1, //
    ])?;
    file.extend_from_slice(&[resolution, 0, 0, 0, 0, 0, 0, 28])?;
    file.extend_from_slice(&[0, 0, 0, 6, 0, 0, 0, 32, 0, 0, 0, 0])?;
    file.extend_from_slice(&high.to_be_bytes())?;
    file.extend_from_slice(&low.to_be_bytes())?;
    file.extend_from_slice(&[0, 0, 0, 0, 0, 0, 0, 0, 0, 0, 0, 32])?;
    Ok(file)
}

/// Resolution, the time's halves, and its nanoseconds: 10^9 times the time, divided by 10 or 2 to
/// the resolution's power, the rest cut off.
fn times() -> &'static [(u8, u32, u32, u64)] {
    &[
        (0, 0, 3, 3_000_000_000),
        (3, 0, 3, 3_000_000),
        (6, 0, 3, 3_000),
        (9, 0, 3, 3),
        (9, 1, 0, 4_294_967_296),
        (9, 0xffff_ffff, 0xffff_ffff, 18_446_744_073_709_551_615),
        (10, 0, 39, 3),
        (12, 0, 999, 0),
        (12, 0, 1_000, 1),
        (38, 0xffff_ffff, 0xffff_ffff, 0),
        (127, 0xffff_ffff, 0xffff_ffff, 0),
        (0x80, 0, 3, 3_000_000_000),
        (0x81, 0, 3, 1_500_000_000),
        (0x8a, 0, 1, 976_562),
        (0xa0, 1, 0, 1_000_000_000),
        (0xa0, 0, 1, 0),
        (0xc0, 0xffff_ffff, 0xffff_ffff, 999_999_999),
        (0xff, 0xffff_ffff, 0xffff_ffff, 0),
        // the last microsecond before 2^64 nanoseconds, and the first one after them
        (6, 4_294_967, 1_271_310_319, 18_446_744_073_709_551_000),
        (6, 4_294_967, 1_271_310_320, 18_446_744_073_709_551_615),
        (0, 0xffff_ffff, 0xffff_ffff, 18_446_744_073_709_551_615),
    ]
}

#[test]
fn times_in_nanoseconds(rt: HostRuntime) -> Result<(), Fail> {
    for (resolution, high, low, nanoseconds) in times() {
        let file = file_at(rt.alloc(), *resolution, *high, *low)?;
        let mut reader = PcapngReader::new(rt.alloc());
        let mut records = Vec::new(rt.alloc());
        records_of(rt.alloc(), &mut reader, &file, &mut records)?;
        let [record] = records.as_slice() else {
            return Err("one packet".into());
        };
        assert!(rt;
            record.nanoseconds == *nanoseconds,
            "{resolution} {high} {low}"
        );
    }
    Ok(())
}
