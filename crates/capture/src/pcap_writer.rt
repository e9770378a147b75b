//! Pcap files, written: the header, and one record after another.
ghost use Rattle.std.specs.Prelude.{◌≡◌, ◌++◌, OnOk, OnErr};
ghost use Rattle.capture.specs.Pcap.{magic_of, header_bytes, head_bytes, record_bytes};
ghost use Rattle.capture.specs.SeenRecord.{record_parts};

use crate::endian::Endian;
use crate::pcap::{PcapHeader, RECORD_HEADER_BYTES, RecordHead, Resolution};
use crate::record::Record;
use std::alloc::AllocError;

/// The magic number of a file, written in its own order.
fn magic_of(resolution: Resolution) -> u32
    ensures { result ≡ magic_of resolution }
{
    match resolution {
        Resolution::Microseconds => 0xA1B2_C3D4,
        Resolution::Nanoseconds => 0xA1B2_3C4D,
    }
}

/// The 24 bytes of a file's header.
fn header_array(header: &PcapHeader) -> [u8; 24]
    ensures { result ≡ header_bytes header.now }
{
    let endian = header.endian;
    let [a0, a1, a2, a3] = endian.bytes_of_u32(magic_of(header.resolution));
    let [b0, b1] = endian.bytes_of_u16(header.major);
    let [c0, c1] = endian.bytes_of_u16(header.minor);
    let [d0, d1, d2, d3] = endian.bytes_of_u32(header.zone);
    let [e0, e1, e2, e3] = endian.bytes_of_u32(header.accuracy);
    let [f0, f1, f2, f3] = endian.bytes_of_u32(header.snap_length);
    let [g0, g1, g2, g3] = endian.bytes_of_u32(header.link_type);
    [
        a0, a1, a2, a3, b0, b1, c0, c1, d0, d1, d2, d3, e0, e1, e2, e3, f0, f1, f2, f3, g0, g1, g2,
        g3,
    ]
}

/// The sixteen bytes of a record's header.
fn head_array(endian: Endian, head: &RecordHead) -> [u8; 16]
    ensures { result ≡ head_bytes endian head.now }
{
    let [a0, a1, a2, a3] = endian.bytes_of_u32(head.seconds);
    let [b0, b1, b2, b3] = endian.bytes_of_u32(head.fraction);
    let [c0, c1, c2, c3] = endian.bytes_of_u32(head.captured);
    let [d0, d1, d2, d3] = endian.bytes_of_u32(head.original);
    [
        a0, a1, a2, a3, b0, b1, b2, b3, c0, c1, c2, c3, d0, d1, d2, d3,
    ]
}

/// Appends a file's header.
pub fn write_pcap_header(out: &mut Vec<u8>, header: &PcapHeader) -> Result<(), AllocError>
    ensures ok { OnOk result (out.new.items ≡ out.old.items ++ header_bytes header.now) }
    ensures err { OnErr result (out.new.items ≡ out.old.items) }
{
    out.extend_from_slice(&header_array(header))
}

/// Appends a record, in the order of the file's header.
pub fn write_record(out: &mut Vec<u8>, endian: Endian, record: &Record) -> Result<(), AllocError>
    ensures ok { OnOk result
        (out.new.items ≡ out.old.items ++ record_bytes endian (record_parts «record».now)) }
    ensures err { OnErr result (out.new.items ≡ out.old.items) }
{
    out.reserve(RECORD_HEADER_BYTES + record.head.captured as usize)?;
    out.extend_from_slice(&head_array(endian, &record.head))?;
    out.extend_from_slice(&record.bytes)?;
    Ok(())
}
