//! The bursts that recorded frames came from.
use crate::frame_files::{FRAME, ORIGIN, TIME};
use crate::recorded::{first_record, record};
use capture::CaptureRecord;
use frame_records::{
    FrameLink, FrameOrigin, MOST_BURSTS, burst_ids, first_burst_ids, put_file_header, put_frame,
};
use std::alloc::{AllocError, Global};
use std::test::Fail;

/// Whether the packet of a record names just these bursts, in this order.
fn names(given: &CaptureRecord, wanted: &[u64]) -> bool {
    let mut ids = burst_ids(given);
    for id in wanted {
        if ids.next() != Some(*id) {
            return false;
        }
    }
    ids.next().is_none() && ids.next().is_none()
}

/// A frame from this origin, written and read back.
fn written(alloc: Global, origin: &FrameOrigin) -> Result<CaptureRecord, Fail> {
    let mut file = Vec::new(alloc);
    put_file_header(&mut file, FrameLink::Xra)?;
    put_frame(alloc, &mut file, FrameLink::Xra, TIME, origin, &FRAME)?;
    match first_record(alloc, &file)? {
        Some(given) => Ok(given),
        None => Err(Fail::from(AllocError)),
    }
}

#[test]
fn a_written_frame_names_its_burst(rt: HostRuntime) -> Result<(), Fail> {
    assert!(rt; names(&written(rt.alloc(), &ORIGIN)?, &[77]));
    for (burst_id, wanted) in [(Some(u64::MAX), &[u64::MAX][..]), (None, &[])] {
        let origin = FrameOrigin { burst_id, ..ORIGIN };
        assert!(rt; names(&written(rt.alloc(), &origin)?, wanted));
    }
    Ok(())
}

/// A name, a packet, and the bursts that it names.
fn named() -> &'static [(&'static str, &'static [u8], &'static [u64])] {
    &[
        ("no TLVs", &[1, 80, 0, 0, 0xaa], &[]),
        ("no TLV 14", &[1, 80, 0, 3, 1, 1, 7, 0xaa], &[]),
        (
            "two bursts, and a channel between them",
            &[
                1, 80, 0, 14, 14, 3, 1, 1, 9, 10, 1, 3, 14, 4, 1, 2, 1, 0, 0xaa,
            ],
            &[9, 256],
        ),
        (
            "two TLVs 1 in a TLV 14",
            &[1, 80, 0, 8, 14, 6, 1, 1, 9, 1, 1, 5, 0xaa],
            &[5],
        ),
        (
            "a number of eight bytes",
            &[1, 80, 0, 12, 14, 10, 1, 8, 1, 2, 3, 4, 5, 6, 7, 8],
            &[0x0102_0304_0506_0708],
        ),
        (
            "a number of nine bytes, and a burst behind it",
            &[
                1, 80, 0, 18, 14, 11, 1, 9, 0, 0, 0, 0, 0, 0, 0, 0, 5, 14, 3, 1, 1, 6,
            ],
            &[6],
        ),
        (
            "a TLV 1 of no bytes, a TLV 14 without TLV 1 and an empty one, and a burst behind them",
            &[
                1, 80, 0, 16, 14, 2, 1, 0, 14, 3, 10, 1, 3, 14, 0, 14, 3, 1, 1, 6,
            ],
            &[6],
        ),
        (
            "half a TLV in a TLV 14, and a burst behind it",
            &[1, 80, 0, 11, 14, 4, 1, 1, 9, 1, 14, 3, 1, 1, 6],
            &[6],
        ),
        ("a burst's own packet", &[1, 65, 0, 3, 13, 1, 9, 0xaa], &[]),
        (
            "TLVs that overrun the packet",
            &[1, 80, 0, 6, 14, 3, 1, 1, 9],
            &[],
        ),
    ]
}

#[test]
fn packets_name_their_bursts(rt: HostRuntime) -> Result<(), Fail> {
    for (name, bytes, wanted) in named() {
        let given = record(rt.alloc(), *bytes)?;
        assert!(rt; names(&given, *wanted), "{name}");
    }
    Ok(())
}

/// A packet that names two bursts.
const PACKET: [u8; 15] = [1, 80, 0, 10, 14, 3, 1, 1, 9, 14, 3, 1, 1, 6, 0xaa];

#[test]
fn bursts_in_a_loop(rt: HostRuntime) -> Result<(), Fail> {
    let given = record(rt.alloc(), &PACKET)?;
    let mut last = 0;
    for id in burst_ids(&given) {
        last = id;
    }
    assert!(rt; last == 6);
    assert!(rt; burst_ids(&given).count() == 2);
    Ok(())
}

#[test]
fn records_without_a_whole_packet(rt: HostRuntime) -> Result<(), Fail> {
    let other = CaptureRecord {
        link_type: 143,
        ..record(rt.alloc(), &PACKET)?
    };
    assert!(rt; names(&other, &[]));
    let cut = CaptureRecord {
        original: 16,
        ..record(rt.alloc(), &PACKET)?
    };
    assert!(rt; names(&cut, &[]));
    Ok(())
}

/// A packet that names so many bursts, at most 50, from 1 on.
fn packet_of(alloc: Global, count: u8) -> Result<Vec<u8>, AllocError> {
    let mut packet = vec![in alloc; 1, 80, 0, 5 * count.min(50)]?;
    for id in 1..=count.min(50) {
        packet.extend_from_slice(&[14, 3, 1, 1, id])?;
    }
    Ok(packet)
}

#[test]
fn first_sixteen_bursts_are_given(rt: HostRuntime) -> Result<(), Fail> {
    for count in [0, 1, 15, 16, 17, 50] {
        let packet = packet_of(rt.alloc(), count)?;
        let given = record(rt.alloc(), &packet)?;
        let first = first_burst_ids(&given);
        assert!(rt; first.len() == usize::from(count).min(MOST_BURSTS));
        for (place, id) in first.iter().enumerate() {
            assert!(rt; *id == 1 + place as u64);
        }
    }
    let cut = CaptureRecord {
        original: 16,
        ..record(rt.alloc(), &PACKET)?
    };
    assert!(rt; first_burst_ids(&cut).is_empty());
    Ok(())
}
