//! The bytes of files and of their records.
use capture::{last_value, read_packet};
use frame_records::{FrameLink, FrameOrigin, put_file_header, put_frame};
use std::alloc::{AllocError, Global};
use std::process::Abort;
use std::test::Fail;

/// A frame of eight bytes.
pub(crate) const FRAME: [u8; 8] = [0, 0, 0, 2, 0x11, 0x11, 0xaa, 0xbb];

/// A burst of channel 3 and SID 291, the analyser's 77th.
pub(crate) const ORIGIN: FrameOrigin = FrameOrigin {
    channel: 3,
    sid: 291,
    burst_id: Some(77),
};

/// A time in nanoseconds, and the head of the frame's record at it.
pub(crate) const TIME: u64 = 1_600_000_000_123_456_789;

const HEAD: [u8; 8] = [0, 0x10, 0x5e, 0x5f, 0x15, 0xcd, 0x5b, 7];

fn expect_bytes(rt: &impl Abort, out: &[u8], parts: &[&[u8]]) {
    let mut rest = out;
    for part in parts {
        assert!(rt; rest.starts_with(part));
        rest = rest.get(part.len()..).unwrap_or(&[]);
    }
    assert!(rt; rest.is_empty());
}

#[test]
fn header_says_order_unit_and_link(rt: HostRuntime) -> Result<(), Fail> {
    for (link, kind) in [(FrameLink::Docsis, [143, 0]), (FrameLink::Xra, [0x11, 1])] {
        let mut out = Vec::new(rt.alloc());
        put_file_header(&mut out, link)?;
        let front = [0x4d, 0x3c, 0xb2, 0xa1, 2, 0, 4, 0, 0, 0, 0, 0, 0, 0, 0, 0];
        expect_bytes(&rt, &out, &[&front, &[0, 0, 4, 0], &kind, &[0, 0]]);
    }
    Ok(())
}

#[test]
fn frame_alone_follows_what_was_put(rt: HostRuntime) -> Result<(), Fail> {
    let mut out = vec![in rt.alloc(); 9, 9]?;
    put_frame(
        rt.alloc(),
        &mut out,
        FrameLink::Docsis,
        TIME,
        &ORIGIN,
        &FRAME,
    )?;
    let lengths = [8, 0, 0, 0, 8, 0, 0, 0];
    expect_bytes(&rt, &out, &[&[9, 9], &HEAD, &lengths, &FRAME]);
    Ok(())
}

#[test]
fn packet_names_channel_sid_and_burst(rt: HostRuntime) -> Result<(), Fail> {
    let mut out = Vec::new(rt.alloc());
    put_frame(rt.alloc(), &mut out, FrameLink::Xra, TIME, &ORIGIN, &FRAME)?;
    let lengths = [38, 0, 0, 0, 38, 0, 0, 0];
    let address = [10, 1, 3, 11, 2, 1, 0x23];
    let burst = [14, 17, 1, 8, 0, 0, 0, 0, 0, 0, 0, 77];
    expect_bytes(
        &rt,
        &out,
        &[
            &HEAD,
            &lengths,
            &[1, 80, 0, 26],
            &address,
            &burst,
            &address,
            &FRAME,
        ],
    );
    Ok(())
}

/// The packet of the frame from this origin, without its record's header.
fn packet_of(alloc: Global, origin: &FrameOrigin) -> Result<Vec<u8>, AllocError> {
    let mut out = Vec::new(alloc);
    put_frame(alloc, &mut out, FrameLink::Xra, 0, origin, &FRAME)?;
    out.get(16..).unwrap_or(&[]).to_vec(alloc)
}

#[test]
fn channel_has_as_few_bytes_as_it_needs(rt: HostRuntime) -> Result<(), Fail> {
    let cases: [(u32, &[u8]); 8] = [
        (0, &[0]),
        (255, &[255]),
        (256, &[1, 0]),
        (65_535, &[255, 255]),
        (65_536, &[1, 0, 0]),
        (0xff_ffff, &[255, 255, 255]),
        (0x100_0000, &[1, 0, 0, 0]),
        (u32::MAX, &[255, 255, 255, 255]),
    ];
    for (channel, value) in cases {
        let origin = FrameOrigin {
            channel,
            sid: 16_383,
            burst_id: None,
        };
        let bytes = packet_of(rt.alloc(), &origin)?;
        let Some(packet) = read_packet(&bytes) else {
            return Err(Fail::from(AllocError));
        };
        assert!(rt; packet.kind == 80);
        assert!(rt; packet.payload == &FRAME[..]);
        assert!(rt; last_value(packet.tlvs, 10) == Some(value));
        assert!(rt; last_value(packet.tlvs, 11) == Some(&[0x3f, 0xff][..]));
        let burst = last_value(packet.tlvs, 14).unwrap_or(&[]);
        assert!(rt; last_value(burst, 1).is_none());
        assert!(rt; last_value(burst, 10) == Some(value));
    }
    Ok(())
}

#[test]
fn time_without_a_place_is_the_greatest(rt: HostRuntime) -> Result<(), Fail> {
    let greatest = [0xff, 0xff, 0xff, 0xff, 0xff, 0xc9, 0x9a, 0x3b];
    for time in [
        u64::MAX,
        4_294_967_296_000_000_000,
        4_294_967_295_999_999_999,
    ] {
        let mut out = Vec::new(rt.alloc());
        put_frame(
            rt.alloc(),
            &mut out,
            FrameLink::Docsis,
            time,
            &ORIGIN,
            &FRAME,
        )?;
        assert!(rt; out.starts_with(&greatest));
    }
    Ok(())
}
