//! The parts of messages in packets.
use super::{MODEM, change, first, second, whole};
use capture::CaptureRecord;
use registrations::{MessageName, NoPart, part_in_capture, read_part};
use std::alloc::{AllocError, Global};
use std::test::Fail;

/// The REG-RSP-MP that lets a modem in whose primary SID is this one.
fn response(sid: u16) -> MessageName {
    MessageName::RegRspMp { sid, response: 0 }
}

/// A name, a packet, its message, how many parts that has, which this one is, and how many bytes of
/// TLVs it has.
type Row = (&'static str, &'static [u8], MessageName, u8, u8, usize);

fn packets() -> [Row; 4] {
    [
        ("a whole message", whole(), response(1), 1, 1, 149),
        ("a first part", first(), response(2), 2, 1, 60),
        ("a second part", second(), response(2), 2, 2, 89),
        (
            "a change",
            change(),
            MessageName::DbcReq { transaction: 7 },
            1,
            1,
            37,
        ),
    ]
}

#[test]
fn parts_of_messages(rt: HostRuntime) -> Result<(), Fail> {
    for (name, bytes, message, of, number, length) in packets() {
        let part = read_part(bytes).ok().ok_or(name)?;
        assert!(rt; part.modem == MODEM, "{name}");
        assert!(rt; part.message == message, "{name}");
        assert!(rt; part.of == of, "{name}");
        assert!(rt; part.number == number, "{name}");
        assert!(rt; part.tlvs.len() == length, "{name}");
    }
    Ok(())
}

#[test]
fn no_part_is_found_in_a_prefix(rt: HostRuntime) {
    for (name, bytes, _, _, _, _) in packets() {
        for (end, _) in bytes.iter().enumerate() {
            let front = bytes.get(..end).unwrap_or_default();
            assert!(rt; read_part(front).is_err(), "{name}, {end} bytes");
        }
    }
}

/// The bytes, with these bits of one of them flipped.
fn flipped(alloc: Global, bytes: &[u8], place: usize, bits: u8) -> Result<Vec<u8>, AllocError> {
    let mut flipped = bytes.to_vec(alloc)?;
    if let Some(byte) = flipped.get_mut(place) {
        *byte ^= bits;
    }
    Ok(flipped)
}

/// Whether a packet with this byte changed still is what it was: the version of the packet, and the
/// type and the value of a TLV of one byte that stands before the frame, are not looked at.
fn is_not_looked_at(place: usize, tlvs: u8) -> bool {
    place == 0 || (tlvs == 3 && (place == 4 || place == 6))
}

#[test]
fn a_flipped_byte_is_seen(rt: HostRuntime) -> Result<(), Fail> {
    for (name, bytes, _, _, _, _) in packets() {
        let tlvs = *bytes.get(3).ok_or("a length")?;
        let frame = 4 + usize::from(tlvs);
        for (place, _) in bytes.iter().enumerate() {
            for bits in [0x01_u8, 0x80, 0xff] {
                let changed = flipped(rt.alloc(), bytes, place, bits)?;
                let found = read_part(&changed);
                if is_not_looked_at(place, tlvs) {
                    assert!(rt; found.is_ok(), "{name}, byte {place}");
                } else if place == frame {
                    assert!(rt;
                        found.err() == Some(NoPart::OtherFrame),
                        "{name}, byte {place}"
                    );
                } else if place > frame {
                    assert!(rt;
                        found.err() == Some(NoPart::Damaged),
                        "{name}, byte {place}"
                    );
                } else {
                    assert!(rt; found.is_err(), "{name}, byte {place}");
                }
            }
        }
    }
    Ok(())
}

/// A name, a packet, and why it has no part.
fn passed_over() -> &'static [(&'static str, &'static [u8], NoPart)] {
    &[
        ("no bytes", &[], NoPart::Malformed),
        (
            "fewer bytes than the header's length",
            &[1, 1, 0, 3, 18, 1],
            NoPart::Malformed,
        ),
        (
            "a frame of the upstream",
            &[1, 80, 0, 0, 0xc2, 0, 0, 0],
            NoPart::OtherType,
        ),
        ("a frame without bytes", &[1, 1, 0, 0], NoPart::OtherFrame),
        (
            "a packet's frame",
            &[1, 8, 0, 0, 0, 0, 0, 4, 0, 0, 1, 2, 3, 4],
            NoPart::OtherFrame,
        ),
        (
            "a header alone",
            &[1, 11, 0, 0, 0xc2, 0, 0, 0, 0, 0],
            NoPart::Damaged,
        ),
        (
            "a message of no bytes, but for its frame check sequence",
            &[
                1, 11, 0, 0, 0xc2, 0x00, 0x00, 0x04, 0x55, 0xb8, 0x00, 0x00, 0x00, 0x00,
            ],
            NoPart::Malformed,
        ),
        (
            "a message of a wrong length",
            &[
                1, 1, 0, 0, 0xc2, 0x00, 0x00, 0x1d, 0x15, 0x35, 0x02, 0x00, 0x00, 0x00, 0x00, 0x01,
                0x00, 0x11, 0x22, 0x33, 0x44, 0x55, 0x00, 0x0c, 0x00, 0x00, 0x03, 0x04, 0x2d, 0x00,
                0x00, 0x01, 0x00, 0x01, 0x01, 0xff, 0x50, 0x58, 0xdc,
            ],
            NoPart::Malformed,
        ),
        (
            "a message of another type",
            &[
                1, 1, 0, 0, 0xc2, 0x00, 0x00, 0x1d, 0x15, 0x35, 0x02, 0x00, 0x00, 0x00, 0x00, 0x01,
                0x00, 0x11, 0x22, 0x33, 0x44, 0x55, 0x00, 0x0b, 0x00, 0x00, 0x03, 0x04, 0x2e, 0x00,
                0x00, 0x01, 0x00, 0x01, 0x01, 0xed, 0xa3, 0x28, 0x99,
            ],
            NoPart::OtherMessage,
        ),
        (
            "a REG-RSP-MP that ends before its part's number",
            &[
                1, 1, 0, 0, 0xc2, 0x00, 0x00, 0x1c, 0x9c, 0x24, 0x02, 0x00, 0x00, 0x00, 0x00, 0x01,
                0x00, 0x11, 0x22, 0x33, 0x44, 0x55, 0x00, 0x0a, 0x00, 0x00, 0x03, 0x04, 0x2d, 0x00,
                0x00, 0x01, 0x00, 0x01, 0x4a, 0x8a, 0x82, 0x69,
            ],
            NoPart::Malformed,
        ),
        (
            "a DBC-REQ that ends before its part's number",
            &[
                1, 1, 0, 0, 0xc2, 0x00, 0x00, 0x1b, 0x23, 0x50, 0x02, 0x00, 0x00, 0x00, 0x00, 0x01,
                0x00, 0x11, 0x22, 0x33, 0x44, 0x55, 0x00, 0x09, 0x00, 0x00, 0x03, 0x04, 0x24, 0x00,
                0x00, 0x01, 0x01, 0x50, 0x2d, 0x02, 0x1a,
            ],
            NoPart::Malformed,
        ),
        (
            "part 0",
            &[
                1, 1, 0, 0, 0xc2, 0x00, 0x00, 0x1d, 0x15, 0x35, 0x02, 0x00, 0x00, 0x00, 0x00, 0x01,
                0x00, 0x11, 0x22, 0x33, 0x44, 0x55, 0x00, 0x0b, 0x00, 0x00, 0x03, 0x04, 0x2d, 0x00,
                0x00, 0x01, 0x00, 0x02, 0x00, 0x25, 0xda, 0xea, 0xf4,
            ],
            NoPart::Malformed,
        ),
        (
            "part 3 of 2",
            &[
                1, 1, 0, 0, 0xc2, 0x00, 0x00, 0x1d, 0x15, 0x35, 0x02, 0x00, 0x00, 0x00, 0x00, 0x01,
                0x00, 0x11, 0x22, 0x33, 0x44, 0x55, 0x00, 0x0b, 0x00, 0x00, 0x03, 0x04, 0x2d, 0x00,
                0x00, 0x01, 0x00, 0x02, 0x03, 0x9f, 0x8b, 0xe3, 0x6d,
            ],
            NoPart::Malformed,
        ),
    ]
}

#[test]
fn packets_without_a_part(rt: HostRuntime) {
    for (name, bytes, why) in passed_over() {
        assert!(rt; read_part(bytes).err() == Some(*why), "{name}");
    }
}

#[test]
fn a_part_without_tlvs(rt: HostRuntime) {
    let bytes: &[u8] = &[
        1, 1, 0, 0, 0xc2, 0x00, 0x00, 0x1d, 0x15, 0x35, 0x02, 0x00, 0x00, 0x00, 0x00, 0x01, 0x00,
        0x11, 0x22, 0x33, 0x44, 0x55, 0x00, 0x0b, 0x00, 0x00, 0x03, 0x04, 0x2d, 0x00, 0x00, 0x01,
        0x00, 0xff, 0xff, 0x58, 0xaa, 0xfa, 0x78,
    ];
    assert!(rt;
        read_part(bytes).is_ok_and(|part| part.of == 255
            && part.number == 255
            && part.tlvs.is_empty())
    );
}

/// A record of these bytes, of a packet that had so many.
fn record(alloc: Global, original: u32, bytes: &[u8]) -> Result<CaptureRecord, AllocError> {
    Ok(CaptureRecord {
        link_type: 273,
        nanoseconds: 0,
        original,
        bytes: bytes.to_vec(alloc)?,
    })
}

#[test]
fn records_that_were_cut_short(rt: HostRuntime) -> Result<(), Fail> {
    let cut = record(rt.alloc(), 192, whole())?;
    assert!(rt; part_in_capture(&cut).err() == Some(NoPart::CutShort));
    let all = record(rt.alloc(), 191, whole())?;
    assert!(rt; part_in_capture(&all).is_ok());
    Ok(())
}
