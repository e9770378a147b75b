//! Files that are refused, and why.
use super::{beginning_and_rest, fault_of, three_packets};
use capture::{PcapngFault, PcapngReader};

/// A name, a file, and its fault.
fn refused() -> &'static [(&'static str, &'static [u8], PcapngFault)] {
    &[
        ("no bytes", &[], PcapngFault::EndsInside),
        (
            "a pcap file",
            &[0xa1, 0xb2, 0xc3, 0xd4, 0, 2, 0, 4, 0, 0, 0, 0],
            PcapngFault::NoSectionHeader,
        ),
        (
            "an interface before the first section",
            &[
                0, 0, 0, 1, 0, 0, 0, 20, 1, 0x11, 0, 0, 0, 0, 0, 0, 0, 0, 0, 20,
            ],
            PcapngFault::NoSectionHeader,
        ),
        (
            "another byte-order magic",
            &[0x0a, 0x0d, 0x0d, 0x0a, 0, 0, 0, 28, 0x1a, 0x2b, 0x3c, 0x4e],
            PcapngFault::BadByteOrder,
        ),
        (
            "a section of length 0",
            &[0x0a, 0x0d, 0x0d, 0x0a, 0, 0, 0, 0, 0x1a, 0x2b, 0x3c, 0x4d],
            PcapngFault::BadBlockLength,
        ),
        (
            "a section of 24 bytes",
            &[0x0a, 0x0d, 0x0d, 0x0a, 0, 0, 0, 24, 0x1a, 0x2b, 0x3c, 0x4d],
            PcapngFault::BadBlockLength,
        ),
        (
            "a section of the greatest length",
            &[
                0x0a, 0x0d, 0x0d, 0x0a, 0xff, 0xff, 0xff, 0xff, 0x1a, 0x2b, 0x3c, 0x4d,
            ],
            PcapngFault::BadBlockLength,
        ),
        (
            "a section of four bytes above 2 MiB",
            &[
                0x0a, 0x0d, 0x0d, 0x0a, 0, 0x20, 0, 4, 0x1a, 0x2b, 0x3c, 0x4d,
            ],
            PcapngFault::BlockTooLong,
        ),
        (
            "version 2",
            &[
                0x0a, 0x0d, 0x0d, 0x0a, 0, 0, 0, 28, 0x1a, 0x2b, 0x3c, 0x4d, 0, 2, 0, 0, //
                0, 0, 0, 0, 0, 0, 0, 0, 0, 0, 0, 28,
            ],
            PcapngFault::UnsupportedVersion,
        ),
        (
            "two lengths",
            &[
                0x0a, 0x0d, 0x0d, 0x0a, 0, 0, 0, 28, 0x1a, 0x2b, 0x3c, 0x4d, 0, 1, 0, 0, //
                0, 0, 0, 0, 0, 0, 0, 0, 0, 0, 0, 32,
            ],
            PcapngFault::LengthsDiffer,
        ),
    ]
}

#[test]
fn files_that_are_refused(rt: HostRuntime) {
    for (name, file, fault) in refused() {
        assert!(rt; fault_of(rt.alloc(), file) == Some(*fault), "{name}");
    }
}

/// A name, what follows a section header and an interface, most significant byte first, its fault.
fn refused_behind_an_interface() -> &'static [(&'static str, &'static [u8], PcapngFault)] {
    &[
        (
            "a block of length 0",
            &[0, 0, 0, 5, 0, 0, 0, 0],
            PcapngFault::BadBlockLength,
        ),
        (
            "a block of eight bytes",
            &[0, 0, 0, 5, 0, 0, 0, 8],
            PcapngFault::BadBlockLength,
        ),
        (
            "a block of 14 bytes",
            &[0, 0, 0, 5, 0, 0, 0, 14],
            PcapngFault::BadBlockLength,
        ),
        (
            "a block of the greatest length",
            &[0, 0, 0, 5, 0xff, 0xff, 0xff, 0xff],
            PcapngFault::BadBlockLength,
        ),
        (
            "a block whose two lengths differ",
            &[0, 0, 0, 5, 0, 0, 0, 12, 0, 0, 0, 16],
            PcapngFault::LengthsDiffer,
        ),
        (
            "an interface of 16 bytes",
            &[0, 0, 0, 1, 0, 0, 0, 16],
            PcapngFault::BadBlockLength,
        ),
        (
            "a packet of 28 bytes",
            &[0, 0, 0, 6, 0, 0, 0, 28],
            PcapngFault::BadBlockLength,
        ),
        (
            "a packet whose block has four bytes above 2 MiB",
            &[0, 0, 0, 6, 0, 0x20, 0, 4],
            PcapngFault::BlockTooLong,
        ),
        (
            "an option that overruns its block",
            &[
                0, 0, 0, 1, 0, 0, 0, 24, 0, 1, 0, 0, 0, 0, 0, 0, 0, 2, 0, 1, 0, 0, 0, 24,
            ],
            PcapngFault::BadInterface,
        ),
        (
            "a time resolution of two bytes",
            &[
                0, 0, 0, 1, 0, 0, 0, 28, 0, 1, 0, 0, 0, 0, 0, 0, 0, 9, 0, 2, 6, 6, 0, 0, 0, 0, 0,
                28,
            ],
            PcapngFault::BadInterface,
        ),
        (
            "a time resolution without a byte",
            &[
                0, 0, 0, 1, 0, 0, 0, 24, 0, 1, 0, 0, 0, 0, 0, 0, 0, 9, 0, 0, 0, 0, 0, 24,
            ],
            PcapngFault::BadInterface,
        ),
        (
            "a packet of the second interface",
            &[
                0, 0, 0, 6, 0, 0, 0, 32, 0, 0, 0, 1, 0, 0, 0, 0, 0, 0, 0, 0, //
                0, 0, 0, 0, 0, 0, 0, 0, 0, 0, 0, 32,
            ],
            PcapngFault::UnknownInterface,
        ),
        (
            "a packet behind the next section's header",
            &[
                0x0a, 0x0d, 0x0d, 0x0a, 0, 0, 0, 28, 0x1a, 0x2b, 0x3c, 0x4d, 0, 1, 0, 0, //
                0, 0, 0, 0, 0, 0, 0, 0, 0, 0, 0, 28, //
                0, 0, 0, 6, 0, 0, 0, 32, 0, 0, 0, 0, 0, 0, 0, 0, 0, 0, 0, 0, //
                0, 0, 0, 0, 0, 0, 0, 0, 0, 0, 0, 32,
            ],
            PcapngFault::UnknownInterface,
        ),
        (
            "a packet of a byte above 1 MiB",
            &[
                0, 0, 0, 6, 0, 0, 0, 32, 0, 0, 0, 0, 0, 0, 0, 0, 0, 0, 0, 0, //
                0, 0x10, 0, 1, 0, 0, 0, 0, 0, 0, 0, 32,
            ],
            PcapngFault::RecordTooLong,
        ),
        (
            "a packet of the greatest length",
            &[
                0, 0, 0, 6, 0, 0, 0, 32, 0, 0, 0, 0, 0, 0, 0, 0, 0, 0, 0, 0, //
                0xff, 0xff, 0xff, 0xff, 0, 0, 0, 0, 0, 0, 0, 32,
            ],
            PcapngFault::RecordTooLong,
        ),
        (
            "a packet that overruns its block by a byte",
            &[
                0, 0, 0, 6, 0, 0, 0, 36, 0, 0, 0, 0, 0, 0, 0, 0, 0, 0, 0, 0, //
                0, 0, 0, 5, 0, 0, 0, 5, 1, 2, 3, 4, 0, 0, 0, 36,
            ],
            PcapngFault::PacketOverruns,
        ),
    ]
}

#[test]
fn blocks_that_are_refused(rt: HostRuntime) {
    for (name, blocks, fault) in refused_behind_an_interface() {
        let mut file = Vec::new(rt.alloc());
        let head = beginning_and_rest().map_or(three_packets(), |parts| parts.0);
        assert!(rt; file.extend_from_slice(head).is_ok());
        assert!(rt; file.extend_from_slice(blocks).is_ok());
        assert!(rt; fault_of(rt.alloc(), &file) == Some(*fault), "{name}");
    }
}

#[test]
fn a_fault_is_reported_again(rt: HostRuntime) {
    let mut reader = PcapngReader::new(rt.alloc());
    let no_section: &[u8] = &[0xa1, 0xb2, 0xc3, 0xd4, 0, 2, 0, 4, 0, 0, 0, 0];
    assert!(rt; reader.take(rt.alloc(), no_section).is_err());
    let again = reader.take(rt.alloc(), three_packets());
    assert!(rt; again.err() == Some(PcapngFault::NoSectionHeader));
    assert!(rt; reader.finish().err() == Some(PcapngFault::NoSectionHeader));
}
