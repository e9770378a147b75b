//! One reader of captures of either format.
ghost use Rattle.std.specs.Prelude.{◌≡◌, ◌++◌, ◌↔◌, ℕ, List, [], Some, None, option_map, IfOk};
ghost use Rattle.std.specs.Prelude.{IfErr, IsOk};
ghost use Rattle.capture.specs.PcapReading.{MovesOn};
ghost use Rattle.capture.specs.PcapngBlocks.{CaptureParts};
ghost use Rattle.capture.specs.SeenCapture.{capture_parts, captured_by};
ghost use Rattle.capture.specs.SeenRecord.{record_parts, given_by};
ghost use Rattle.capture.specs.Inside.Ready.{IsReady};
ghost use Rattle.capture.specs.Captures.{pcap_nanoseconds, captured_record, captured_records};
ghost use Rattle.capture.specs.Captures.{HasCaptured, TakesCapture, HasCaptureFault, capture_fault};
ghost use Rattle.capture.specs.Captures.{IsWholeCapture};

use crate::capture_fault::CaptureFault;
use crate::capture_record::{CaptureRecord, CaptureTaken};
use crate::pcap::{PcapHeader, RecordHead, Resolution};
use crate::pcap_reader::PcapReader;
use crate::pcapng_reader::PcapngReader;
use crate::record::Record;
use std::alloc::Global;

/// The first byte of a pcapng file. No pcap file begins with it.
const FIRST_OF_PCAPNG: u8 = 0x0A;

/// Reads a capture that comes in pieces of any size: a pcapng file if its first byte is 0A, as that
/// of each pcapng file and of no pcap file is, and a pcap file otherwise. It holds what the one
/// that it is then holds.
#[derive(Debug, Drop)]
pub enum CaptureReader {
    /// Nothing has come yet.
    Unread,
    /// The reader of a pcap file.
    OfPcap(PcapReader),
    /// The reader of a pcapng file.
    OfPcapng(PcapngReader),
}

/// The time of a record in nanoseconds.
fn pcap_nanoseconds(resolution: Resolution, head: RecordHead) -> u64
    ensures { result ≡ pcap_nanoseconds resolution head }
{
    let unit = match resolution {
        Resolution::Microseconds => 1_000,
        Resolution::Nanoseconds => 1,
    };
    u64::from(head.seconds) * 1_000_000_000 + u64::from(head.fraction) * unit
}

/// A record of a pcap file, as one of a capture.
fn captured_record(header: PcapHeader, given: Record) -> CaptureRecord
    ensures { capture_parts result ≡ captured_record header (record_parts given) }
{
    CaptureRecord {
        link_type: header.link_type,
        nanoseconds: pcap_nanoseconds(header.resolution, given.head),
        original: given.head.original,
        bytes: given.bytes,
    }
}

/// The same of a record that was given, where the file's header is known.
fn captured(header: Option<PcapHeader>, given: Option<Record>) -> Option<CaptureRecord>
    ensures { captured_by result ≡ captured_records header (given_by given) }
{
    match (header, given) {
        (Some(header), Some(given)) => Some(captured_record(header, given)),
        _ => None,
    }
}

impl CaptureReader {
    /// A reader that has taken nothing.
    pub fn new() -> CaptureReader
        ensures { HasCaptured result [] [] }
    {
        CaptureReader::Unread
    }

    /// With the first byte of a file it is known which reader it needs.
    fn begin(&mut self, alloc: Global, piece: &[u8])
        ensures ready { (records : List CaptureParts) (bytes : List ℕ)
            → HasCaptured self.old records bytes → IsReady self.new piece.now records bytes }
        ensures begun { self.new ≡ CaptureReader.Unread → piece.now ≡ [] }
        ensures fault { capture_fault self.new ≡ capture_fault self.old }
    {
        if let CaptureReader::Unread = self
            && let Some(first) = piece.first()
        {
            *self = if *first == FIRST_OF_PCAPNG {
                CaptureReader::OfPcapng(PcapngReader::new(alloc))
            } else {
                CaptureReader::OfPcap(PcapReader::new(alloc))
            };
        }
    }

    /// Takes bytes from the front of the piece, at most up to the end of the record or block that
    /// is next, and gives its packet if it is one. Call it again with the rest until nothing is
    /// left.
    ///
    /// After a fault each call reports the same one.
    pub fn take<'a>(
        &mut self,
        alloc: Global,
        piece: &'a [u8],
    ) -> Result<CaptureTaken<'a>, CaptureFault>
        // Whatever bytes it had taken, it now has taken these and those from the piece; what it
        // gives is the next record of them.
        ensures taken { IfOk result (λ taken. TakesCapture self.old self.new
            (captured_by taken.record) piece.now taken.rest.now) }
        // Of a piece that isn't empty it takes something.
        ensures some { IfOk result (λ taken. MovesOn piece.now taken.rest.now) }
        // A fault that is new is one of all bytes that came.
        ensures fault { IfErr result (λ fault. (records : List CaptureParts) (bytes : List ℕ)
            → HasCaptured self.old records bytes
            → HasCaptureFault records (bytes ++ piece.now) fault) }
        ensures kept { IfErr result (λ fault. capture_fault self.new ≡ Some fault) }
        ensures again { (fault : CaptureFault) → capture_fault self.old ≡ Some fault
            → result ≡ Err fault }
    {
        self.begin(alloc, piece);
        match self {
            CaptureReader::Unread => Ok(CaptureTaken {
                record: None,
                rest: piece,
            }),
            CaptureReader::OfPcap(reader) => {
                let taken = reader.take(alloc, piece)?;
                Ok(CaptureTaken {
                    record: captured(reader.header(), taken.record),
                    rest: taken.rest,
                })
            }
            CaptureReader::OfPcapng(reader) => Ok(reader.take(alloc, piece)?),
        }
    }

    /// Whether the file may end here. Where it may not, the fault that came or that it ends inside;
    /// a file without bytes is no capture.
    pub fn finish(&self) -> Result<(), CaptureFault>
        ensures end { IsOk result ↔ IsWholeCapture self.now }
        ensures fault { (fault : CaptureFault) → capture_fault self.now ≡ Some fault
            → result ≡ Err fault }
    {
        match self {
            CaptureReader::Unread => Err(CaptureFault::NoCapture),
            CaptureReader::OfPcap(reader) => Ok(reader.finish()?),
            CaptureReader::OfPcapng(reader) => Ok(reader.finish()?),
        }
    }
}
