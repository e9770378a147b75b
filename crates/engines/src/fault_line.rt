//! The line that reports a fault. It is put together in place, so that it takes no memory.
ghost use Rattle.std.specs.Prelude.{◌≡◌, ◌+◌, ◌<◌, ◌≤◌, ◌++◌, length, true, OnOk, OnErr};
ghost use Rattle.std.specs.Io.KnownBytes.{Appends};
ghost use Rattle.std.specs.Fmt.{decimal};
ghost use Rattle.engines.specs.Device.{inner_of, has_failed, is_flushed};
ghost use Rattle.engines.specs.Transfer.{AppendsFront};
ghost use Rattle.engines.specs.Fault.{pcap_text, pcapng_text, capture_text, cut_fault_text};
ghost use Rattle.engines.specs.Fault.{fault_text, fault_line};

use crate::device::Device;
use crate::fault::{EngineFault, WriteFault};
use crate::transfer::write_text;
use arrayvec::ArrayString;
use capture::{CaptureFault, PcapFault, PcapngFault};
use docsis_wire::CutFault;
use itoa::Buffer;
use std::io::Write;

/// A line of at most 96 bytes.
type Line = ArrayString<96>;

/// Appends a number between two texts.
fn push_counted(line: &mut Line, before: &str, number: u64, after: &str)
    requires { length line.old.bytes + length before.now + length after.now ≤ 76 }
    ensures text { line.new.bytes
        ≡ line.old.bytes ++ (before.now ++ decimal number ++ after.now) }
    ensures room { length line.new.bytes
        ≤ length line.old.bytes + length before.now + length after.now + 20 }
{
    let mut buffer = Buffer::new();
    line.push_str(before);
    line.push_str(buffer.format(number));
    line.push_str(after);
}

/// Appends the words for a fault of a cut.
fn push_cut_fault(line: &mut Line, fault: &CutFault)
    requires { length line.old.bytes ≤ 8 }
    ensures text { line.new.bytes ≡ line.old.bytes ++ cut_fault_text fault.now }
    ensures room { length line.new.bytes < 96 }
{
    match fault {
        CutFault::BadFrame(k) => push_counted(line, "frame ", *k as u64, " is not a frame"),
        CutFault::FillInsideFrame(k) => {
            push_counted(line, "piece ", *k as u64, " has fill inside a frame");
        }
        CutFault::PointerTooFar(k) => {
            push_counted(line, "piece ", *k as u64, " has a pointer past 16383");
        }
        CutFault::OutOfMemory => line.push_str("out of memory"),
    }
}

/// The words for a fault of a pcap file.
fn pcap_text(fault: PcapFault) -> &'static str
    ensures text { result.now ≡ pcap_text fault }
    ensures short { length result.now ≤ 36 }
{
    match fault {
        PcapFault::NotPcap => "not a pcap file",
        PcapFault::RecordTooLong => "a record of more than 1 MiB",
        PcapFault::EndsInside => "the file ends within a record",
        PcapFault::OutOfMemory => "out of memory",
    }
}

/// The words for a fault of a pcapng file.
fn pcapng_text(fault: PcapngFault) -> &'static str
    ensures text { result.now ≡ pcapng_text fault }
    ensures short { length result.now ≤ 36 }
{
    match fault {
        PcapngFault::NoSectionHeader => "not a pcapng file",
        PcapngFault::BadByteOrder => "a section of no byte order",
        PcapngFault::BadBlockLength => "a block of a wrong length",
        PcapngFault::BlockTooLong => "a block of more than 2 MiB",
        PcapngFault::LengthsDiffer => "a block whose two lengths differ",
        PcapngFault::UnsupportedVersion => "a section of an unsupported version",
        PcapngFault::TooManyInterfaces => "a section with too many interfaces",
        PcapngFault::BadInterface => "an interface with a malformed option",
        PcapngFault::UnknownInterface => "a packet of an unknown interface",
        PcapngFault::RecordTooLong => "a record of more than 1 MiB",
        PcapngFault::PacketOverruns => "a packet that overruns its block",
        PcapngFault::EndsInside => "the file ends within a block",
        PcapngFault::OutOfMemory => "out of memory",
    }
}

/// The words for a fault of a capture.
fn capture_text(fault: CaptureFault) -> &'static str
    ensures text { result.now ≡ capture_text fault }
    ensures short { length result.now ≤ 36 }
{
    match fault {
        CaptureFault::NoCapture => "neither a pcap nor a pcapng file",
        CaptureFault::Pcap(fault) => pcap_text(fault),
        CaptureFault::Pcapng(fault) => pcapng_text(fault),
    }
}

/// Appends the words for a fault.
fn push_fault(line: &mut Line, fault: &EngineFault)
    requires { length line.old.bytes ≤ 8 }
    ensures text { line.new.bytes ≡ line.old.bytes ++ fault_text fault.now }
    ensures room { length line.new.bytes < 96 }
{
    match fault {
        EngineFault::Trace(fault) => {
            push_counted(line, "line ", fault.line, ": ");
            line.push_str(fault.kind.text());
        }
        EngineFault::Cut(fault) => push_cut_fault(line, fault),
        EngineFault::Capture(fault) => {
            push_counted(line, "after ", fault.records, " records: ");
            line.push_str(capture_text(fault.fault));
        }
        EngineFault::OutOfMemory => line.push_str("out of memory"),
        EngineFault::Read => line.push_str("read failed"),
        EngineFault::Write => line.push_str("write failed"),
        EngineFault::Usage => line.push_str("usage"),
    }
}

/// The line that reports a fault, with its line feed.
fn line_of(fault: &EngineFault) -> Line
    ensures { result.bytes ≡ fault_line fault.now }
{
    let mut line = Line::new();
    line.push_str("segrx: ");
    push_fault(&mut line, fault);
    line.push_str("\n");
    line
}

/// Writes the line that reports a fault.
pub fn write_fault<W: Write>(fault: &EngineFault, writer: &mut Device<W>) -> Result<(), WriteFault>
    ensures written { OnOk result (Appends (W.contents (inner_of writer.old))
        (W.contents (inner_of writer.new)) (fault_line fault.now)) }
    ensures flushed { OnOk result (is_flushed writer.new ≡ true) }
    ensures sound { OnOk result (has_failed writer.new ≡ has_failed writer.old) }
    ensures front { OnErr result (AppendsFront (W.contents (inner_of writer.old))
        (W.contents (inner_of writer.new)) (fault_line fault.now)) }
    ensures failed { OnErr result (has_failed writer.new ≡ true) }
{
    write_text(writer, line_of(fault).as_str().as_bytes())
}
