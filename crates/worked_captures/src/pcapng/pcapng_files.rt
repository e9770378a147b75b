//! Whole files.
use super::{Wanted, are, records_of, three_packets, wanted};
use capture::PcapngReader;
use std::test::Fail;

/// Least significant byte first: a section with an option, an interface of link type 1 whose times
/// are nanoseconds by the second of its options, another of link type 147 whose times are 1024ths
/// of a second, and a packet of each, the later interface's first.
fn two_interfaces() -> &'static [u8] {
    &[
        0x0a, 0x0d, 0x0d, 0x0a, 36, 0, 0, 0, 0x4d, 0x3c, 0x2b, 0x1a, 1, 0, 2, 0, //
        0xff, 0xff, 0xff, 0xff, 0xff, 0xff, 0xff, 0xff, 4, 0, 2, 0, 0x6d, 0x65, 0, 0, 36, 0, 0, 0, //
        1, 0, 0, 0, 44, 0, 0, 0, 1, 0, 0, 0, 0, 0, 4, 0, 2, 0, 5, 0, 0x65, 0x74, 0x68, 0x30, 0x31,
        0, 0, 0, 9, 0, 1, 0, 9, 0, 0, 0, 0, 0, 0, 0, 44, 0, 0, 0, //
        1, 0, 0, 0, 32, 0, 0, 0, 147, 0, 0, 0, 0, 0, 0, 0, 9, 0, 1, 0, 0x8a, 0, 0, 0, 0, 0, 0, 0,
        32, 0, 0, 0, //
        6, 0, 0, 0, 36, 0, 0, 0, 1, 0, 0, 0, 0, 0, 0, 0, 1, 2, 0, 0, 1, 0, 0, 0, 1, 0, 0, 0, 0x5a,
        0, 0, 0, 36, 0, 0, 0, //
        6, 0, 0, 0, 36, 0, 0, 0, 0, 0, 0, 0, 1, 0, 0, 0, 2, 0, 0, 0, 4, 0, 0, 0, 9, 0, 0, 0, 1, 2,
        3, 4, 36, 0, 0, 0,
    ]
}

/// Two sections, the second in the other order and with an interface of its own.
fn two_sections() -> &'static [u8] {
    &[
        0x0a, 0x0d, 0x0d, 0x0a, 0, 0, 0, 28, 0x1a, 0x2b, 0x3c, 0x4d, 0, 1, 0, 0, //
        0, 0, 0, 0, 0, 0, 0, 0, 0, 0, 0, 28, //
        0, 0, 0, 1, 0, 0, 0, 20, 0, 1, 0, 0, 0, 0, 0, 0, 0, 0, 0, 20, //
        0, 0, 0, 6, 0, 0, 0, 32, 0, 0, 0, 0, 0, 0, 0, 0, 0, 0, 0, 1, 0, 0, 0, 0, 0, 0, 0, 0, 0, 0,
        0, 32, //
        0x0a, 0x0d, 0x0d, 0x0a, 28, 0, 0, 0, 0x4d, 0x3c, 0x2b, 0x1a, 1, 0, 0, 0, //
        0, 0, 0, 0, 0, 0, 0, 0, 28, 0, 0, 0, //
        1, 0, 0, 0, 20, 0, 0, 0, 2, 0, 0, 0, 0, 0, 0, 0, 20, 0, 0, 0, //
        6, 0, 0, 0, 32, 0, 0, 0, 0, 0, 0, 0, 0, 0, 0, 0, 2, 0, 0, 0, 0, 0, 0, 0, 0, 0, 0, 0, 32, 0,
        0, 0,
    ]
}

/// The packets of the two interfaces.
fn of_two_interfaces() -> &'static [Wanted] {
    &[
        (147, 500_976_562, 1, &[0x5a]),
        (1, 4_294_967_298, 9, &[1, 2, 3, 4]),
    ]
}

/// The packets of the two sections.
fn of_two_sections() -> &'static [Wanted] {
    &[(1, 1_000, 0, &[]), (2, 2_000, 0, &[])]
}

#[test]
fn whole_files(rt: HostRuntime) -> Result<(), Fail> {
    let files = [
        ("most significant byte first", three_packets(), wanted()),
        ("two interfaces", two_interfaces(), of_two_interfaces()),
        ("two sections", two_sections(), of_two_sections()),
    ];
    for (name, file, packets) in files {
        let mut reader = PcapngReader::new(rt.alloc());
        let mut records = Vec::new(rt.alloc());
        records_of(rt.alloc(), &mut reader, file, &mut records)?;
        assert!(rt; are(&records, packets), "{name}");
        assert!(rt; reader.finish().is_ok(), "{name}");
    }
    Ok(())
}

#[test]
fn packets_that_were_cut_short_are_told(rt: HostRuntime) -> Result<(), Fail> {
    let mut reader = PcapngReader::new(rt.alloc());
    let mut records = Vec::new(rt.alloc());
    records_of(rt.alloc(), &mut reader, three_packets(), &mut records)?;
    let [first, second, third] = records.as_slice() else {
        return Err("three packets".into());
    };
    assert!(rt; !first.is_cut_short());
    assert!(rt; !second.is_cut_short());
    assert!(rt; third.is_cut_short());
    Ok(())
}
