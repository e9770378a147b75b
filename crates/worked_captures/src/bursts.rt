//! Packets of link type 273, and the bursts in them. That the smallest packets are read so was seen
//! in tshark 4.0.17.
use capture::{Burst, BurstKind, Passed, last_value, read_burst, read_packet, split_tlv};
use std::test::Fail;

/// A segment header with PFI, number 1234, cluster 2 and request 9, and no payload.
const SEGMENT: [u8; 8] = [0x80, 0x00, 0x26, 0x92, 0x00, 0x09, 0xe4, 0x97];

/// A TDMA burst on channel 3 for SID 291, with burst id 77 and a grant of 256 bits.
fn tdma() -> &'static [u8] {
    &[
        0x01, 0x41, 0x00, 0x1c, 0x0a, 0x01, 0x03, 0x0b, 0x02, 0x01, 0x23, 0x0c, 0x01, 0x05, 0x0d,
        0x08, 0, 0, 0, 0, 0, 0, 0, 0x4d, 0x11, 0x03, 0x00, 0x01, 0x00, 0x12, 0x01, 0x01, 0x80,
        0x00, 0x26, 0x92, 0x00, 0x09, 0xe4, 0x97,
    ]
}

/// The same as an OFDMA burst.
fn ofdma() -> &'static [u8] {
    &[
        0x01, 0x48, 0x00, 0x1c, 0x0a, 0x01, 0x03, 0x0b, 0x02, 0x01, 0x23, 0x0c, 0x01, 0x05, 0x0d,
        0x08, 0, 0, 0, 0, 0, 0, 0, 0x4d, 0x11, 0x03, 0x00, 0x01, 0x00, 0x12, 0x01, 0x01, 0x80,
        0x00, 0x26, 0x92, 0x00, 0x09, 0xe4, 0x97,
    ]
}

/// Whether the burst is that of SID 291 on channel 3.
fn is(burst: &Burst<'_>, kind: BurstKind) -> bool {
    burst.kind == kind
        && burst.channel == 3
        && burst.sid == 291
        && burst.grant_bits == Some(256)
        && burst.burst_id == Some(77)
        && burst.bytes == SEGMENT.as_slice()
}

#[test]
fn all_that_the_tlvs_of_a_burst_say(rt: HostRuntime) {
    assert!(rt; read_burst(tdma()).is_ok_and(|burst| is(&burst, BurstKind::Tdma)));
    assert!(rt; read_burst(ofdma()).is_ok_and(|burst| is(&burst, BurstKind::Ofdma)));
}

/// A name, a packet, and its burst's channel and SID, grant and burst id.
type Row = (
    &'static str,
    &'static [u8],
    (u32, u32),
    Option<u32>,
    Option<u64>,
);

fn bursts() -> &'static [Row] {
    &[
        (
            "neither grant nor burst id",
            &[
                2, 65, 0, 9, 10, 1, 3, 11, 1, 7, 18, 1, 1, 0, 0, 0, 0, 0, 0, 0, 0,
            ],
            (3, 7),
            None,
            None,
        ),
        (
            "numbers of 4 bytes, of which the grant keeps 24 bits",
            &[
                0, 65, 0, 21, 10, 4, 0xff, 0, 0, 1, 11, 4, 0, 0, 0, 2, 17, 4, 0xff, 0, 1, 0, 18, 1,
                9, 0, 0, 0, 0, 0, 0, 0, 0,
            ],
            (0xff00_0001, 2),
            Some(256),
            None,
        ),
        (
            "a burst id of 2 bytes",
            &[
                1, 72, 0, 13, 13, 2, 1, 2, 10, 1, 3, 11, 1, 7, 18, 1, 1, 0, 0, 0, 0, 0, 0, 0, 0,
            ],
            (3, 7),
            None,
            Some(258),
        ),
        (
            "of a type that stands twice the last counts",
            &[
                1, 65, 0, 18, 11, 1, 6, 18, 1, 0, 10, 1, 3, 11, 1, 7, 18, 1, 1, 10, 1, 4, 0, 0, 0,
                0, 0, 0, 0, 0,
            ],
            (4, 7),
            None,
            None,
        ),
        (
            "the TLVs within TLV 14 are not the burst's",
            &[
                1, 65, 0, 20, 10, 1, 3, 11, 1, 7, 18, 1, 1, 14, 9, 10, 1, 8, 11, 1, 9, 18, 1, 0, 0,
                0, 0, 0, 0, 0, 0, 0,
            ],
            (3, 7),
            None,
            None,
        ),
        (
            "a TLV of an unknown type without a value",
            &[
                1, 65, 0, 11, 10, 1, 3, 200, 0, 11, 1, 7, 18, 1, 1, 0, 0, 0, 0, 0, 0, 0, 0,
            ],
            (3, 7),
            None,
            None,
        ),
        (
            "a segment header that is said to be there by any number but 0",
            &[
                1, 65, 0, 10, 10, 1, 3, 11, 1, 7, 18, 2, 1, 0, 0, 0, 0, 0, 0, 0, 0, 0,
            ],
            (3, 7),
            None,
            None,
        ),
    ]
}

#[test]
fn bursts_with_some_tlvs(rt: HostRuntime) {
    for (name, bytes, address, grant_bits, burst_id) in bursts() {
        let found = read_burst(bytes).is_ok_and(|burst| {
            (burst.channel, burst.sid) == *address
                && burst.grant_bits == *grant_bits
                && burst.burst_id == *burst_id
                && burst.bytes.len() == 8
        });
        assert!(rt; found, "{name}");
    }
}

/// A name, a packet, and why it is passed over.
fn passed() -> &'static [(&'static str, &'static [u8], Passed)] {
    &[
        ("no bytes", &[], Passed::Malformed),
        ("three bytes", &[1, 65, 0], Passed::Malformed),
        (
            "fewer bytes than the header's length",
            &[1, 65, 0, 3, 18, 1],
            Passed::Malformed,
        ),
        (
            "a TLV that overruns the header's length, into the burst",
            &[
                1, 65, 0, 9, 10, 1, 3, 11, 1, 7, 18, 2, 1, 0, 0, 0, 0, 0, 0, 0, 0,
            ],
            Passed::Malformed,
        ),
        (
            "a type without a length at the end of the TLVs",
            &[
                1, 65, 0, 10, 10, 1, 3, 11, 1, 7, 18, 1, 1, 0, 0, 0, 0, 0, 0, 0, 0, 0,
            ],
            Passed::Malformed,
        ),
        (
            "a malformed packet of another type",
            &[1, 80, 0, 1, 10],
            Passed::Malformed,
        ),
        (
            "a header alone, of type 65",
            &[1, 65, 0, 0],
            Passed::NoSegmentHeader,
        ),
        (
            "an upstream frame",
            &[1, 80, 0, 0, 0xc2, 0, 0, 0],
            Passed::OtherType,
        ),
        (
            "type 65 with another direction",
            &[1, 1, 0, 3, 18, 1, 1, 0, 0, 0, 0, 0, 0, 0, 0],
            Passed::OtherType,
        ),
        (
            "TLV 18 is zero, and the payload isn't looked at",
            &[1, 65, 0, 9, 10, 1, 3, 11, 1, 7, 18, 1, 0],
            Passed::NoSegmentHeader,
        ),
        (
            "the last TLV 18 is zero",
            &[1, 72, 0, 6, 18, 1, 1, 18, 1, 0],
            Passed::NoSegmentHeader,
        ),
        (
            "TLV 18 within TLV 14 alone",
            &[
                1, 65, 0, 11, 10, 1, 3, 11, 1, 7, 14, 3, 18, 1, 1, 0, 0, 0, 0, 0, 0, 0, 0,
            ],
            Passed::NoSegmentHeader,
        ),
        (
            "a segment header alone, without channel and SID",
            &[
                1, 65, 0, 3, 18, 1, 1, 0x80, 0x00, 0x26, 0x92, 0x00, 0x09, 0xe4, 0x97,
            ],
            Passed::NoChannelOrSid,
        ),
        (
            "no channel",
            &[1, 65, 0, 6, 11, 1, 7, 18, 1, 1, 0, 0, 0, 0, 0, 0, 0, 0],
            Passed::NoChannelOrSid,
        ),
        (
            "no SID",
            &[1, 65, 0, 6, 10, 1, 7, 18, 1, 1, 0, 0, 0, 0, 0, 0, 0, 0],
            Passed::NoChannelOrSid,
        ),
        (
            "seven bytes of burst",
            &[
                1, 65, 0, 9, 10, 1, 3, 11, 1, 7, 18, 1, 1, 0, 0, 0, 0, 0, 0, 0,
            ],
            Passed::Malformed,
        ),
        (
            "a channel without bytes",
            &[
                1, 65, 0, 8, 10, 0, 11, 1, 7, 18, 1, 1, 0, 0, 0, 0, 0, 0, 0, 0,
            ],
            Passed::Malformed,
        ),
        (
            "a SID of five bytes",
            &[
                1, 65, 0, 13, 10, 1, 3, 11, 5, 0, 0, 0, 0, 7, 18, 1, 1, 0, 0, 0, 0, 0, 0, 0, 0,
            ],
            Passed::Malformed,
        ),
        (
            "a burst id of nine bytes",
            &[
                1, 65, 0, 20, 10, 1, 3, 11, 1, 7, 18, 1, 1, 13, 9, 0, 0, 0, 0, 0, 0, 0, 0, 1, 0, 0,
                0, 0, 0, 0, 0, 0,
            ],
            Passed::Malformed,
        ),
        (
            "a grant of five bytes, and no segment header",
            &[1, 65, 0, 7, 17, 5, 0, 0, 0, 1, 0],
            Passed::Malformed,
        ),
    ]
}

#[test]
fn packets_that_are_passed_over(rt: HostRuntime) {
    for (name, bytes, why) in passed() {
        assert!(rt; read_burst(bytes).err() == Some(*why), "{name}");
    }
}

#[test]
fn a_packet_and_its_tlvs(rt: HostRuntime) -> Result<(), Fail> {
    let packet = read_packet(tdma()).ok_or("a packet")?;
    assert!(rt; packet.version == 1);
    assert!(rt; packet.kind == 0x41);
    assert!(rt; packet.payload == SEGMENT.as_slice());
    let (first, rest) = split_tlv(packet.tlvs).ok_or("a TLV")?;
    assert!(rt; first.kind == 10);
    assert!(rt; first.value == [3].as_slice());
    assert!(rt; rest.len() == 25);
    assert!(rt; last_value(packet.tlvs, 18) == Some([1].as_slice()));
    assert!(rt; last_value(packet.tlvs, 19) == None);
    Ok(())
}
