//! The file of frames: its header, and one record after another.
ghost use Rattle.std.specs.Prelude.{◌≡◌, ◌≤◌, ◌++◌, ◌∷◌, OnOk, OnErr, length};
ghost use Rattle.capture.specs.Packet.{two_bytes};
ghost use Rattle.capture.specs.Pcap.{header_bytes, head_bytes, record_bytes};
ghost use Rattle.capture.specs.declared.endian.Endian.TheVariants.{Little};
ghost use Rattle.frame_records.specs.Frames.{file_header, record_head, frame_record, longest_frame};

use crate::link::FrameLink;
use crate::origin::FrameOrigin;
use capture::{RECORD_HEADER_BYTES, write_pcap_header};
use std::alloc::{AllocError, Global};

/// The most bytes of a frame.
pub const LONGEST_FRAME: usize = 65_541;

/// Nanoseconds in a second.
const SECOND: u64 = 1_000_000_000;
/// The greatest time for which a record has a place, in the year 2106.
const GREATEST_TIME: u64 = (1 << 32) * SECOND - 1;

/// Appends the header of a file.
pub fn put_file_header(out: &mut Vec<u8>, link: FrameLink) -> Result<(), AllocError>
    ensures ok { OnOk result (out.new.items ≡ out.old.items ++ header_bytes (file_header link)) }
    ensures err { OnErr result (out.new.items ≡ out.old.items) }
{
    write_pcap_header(out, &link.header())
}

/// Appends the record of a frame of at most 65,541 bytes, which a burst of this origin completed at
/// this time, in nanoseconds since the beginning of 1970. A time for which a record has no place is
/// written as the greatest one.
pub fn put_frame(
    alloc: Global,
    out: &mut Vec<u8>,
    link: FrameLink,
    time: u64,
    origin: &FrameOrigin,
    frame: &[u8],
) -> Result<(), AllocError>
    requires { length frame.now ≤ longest_frame }
    ensures ok { OnOk result (out.new.items
        ≡ out.old.items ++ record_bytes Little (frame_record link time origin.now frame.now)) }
    ensures err { OnErr result (out.new.items ≡ out.old.items) }
{
    match link {
        FrameLink::Docsis => {
            let head = record_head(time, frame.len() as u32);
            put_alone(out, &head, frame)
        }
        FrameLink::Xra => {
            let tlvs = origin.tlvs(alloc)?;
            let head = record_head(time, (4 + tlvs.len() + frame.len()) as u32);
            let front = packet_front(tlvs.len() as u16);
            put_parts(out, &head, &front, &tlvs, frame)
        }
    }
}

/// The front of a packet of type 80 with TLVs of so many bytes.
fn packet_front(length: u16) -> [u8; 4]
    ensures { result ≡ 1 ∷ 80 ∷ two_bytes length }
{
    let [high, low] = length.to_be_bytes();
    [1, 80, high, low]
}

/// Appends a record of a frame alone, or nothing.
fn put_alone(out: &mut Vec<u8>, head: &[u8; 16], frame: &[u8]) -> Result<(), AllocError>
    requires { length frame.now ≤ longest_frame }
    ensures ok { OnOk result (out.new.items ≡ out.old.items ++ head.now ++ frame.now) }
    ensures err { OnErr result (out.new.items ≡ out.old.items) }
{
    out.reserve(RECORD_HEADER_BYTES + frame.len())?;
    out.extend_from_slice(head)?;
    out.extend_from_slice(frame)
}

/// Appends a record of these parts, or nothing.
fn put_parts(
    out: &mut Vec<u8>,
    head: &[u8; 16],
    front: &[u8],
    tlvs: &[u8],
    frame: &[u8],
) -> Result<(), AllocError>
    requires front { length front.now ≤ 4 }
    requires tlvs { length tlvs.now ≤ 255 }
    requires frame { length frame.now ≤ longest_frame }
    ensures ok { OnOk result
        (out.new.items ≡ out.old.items ++ head.now ++ front.now ++ tlvs.now ++ frame.now) }
    ensures err { OnErr result (out.new.items ≡ out.old.items) }
{
    out.reserve(RECORD_HEADER_BYTES + front.len() + tlvs.len() + frame.len())?;
    out.extend_from_slice(head)?;
    out.extend_from_slice(front)?;
    out.extend_from_slice(tlvs)?;
    out.extend_from_slice(frame)
}

/// The sixteen bytes of a record's header.
fn record_head(time: u64, size: u32) -> [u8; 16]
    ensures { result ≡ head_bytes Little (record_head time size) }
{
    let time = time.min(GREATEST_TIME);
    let [a0, a1, a2, a3] = ((time / SECOND) as u32).to_le_bytes();
    let [b0, b1, b2, b3] = ((time % SECOND) as u32).to_le_bytes();
    let [c0, c1, c2, c3] = size.to_le_bytes();
    [
        a0, a1, a2, a3, b0, b1, b2, b3, c0, c1, c2, c3, c0, c1, c2, c3,
    ]
}
