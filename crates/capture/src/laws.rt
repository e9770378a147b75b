//! What follows from the definitions alone.
ghost use Rattle.std.specs.Prelude.{◌≡◌};
ghost use Rattle.std.specs.Prelude.{ℕ, List, Option, Some, None, [], ◌++◌, map};
ghost use Rattle.std.specs.List.{AllByRecursion};
ghost use Rattle.capture.specs.Packet.{Parts, packet_bytes};
ghost use Rattle.capture.specs.declared.pcap.PcapHeader.{PcapHeader};
ghost use Rattle.capture.specs.Pcap.{RecordParts, IsRecord, FitsHeader, file_bytes};
ghost use Rattle.capture.specs.PcapReading.{PcapState, StandsFor};
ghost use Rattle.capture.specs.Pcapng.{Block, IsBlock, blocks_bytes};
ghost use Rattle.capture.specs.PcapngBlocks.{SectionParts, CaptureParts, Tell};
ghost use Rattle.capture.specs.PcapngReading.{PcapngState, HasRead};
ghost use Rattle.capture.specs.PcapngFaults.{HasFault};
ghost use Rattle.capture.specs.declared.pcapng_fault.PcapngFault.{PcapngFault};
ghost use Rattle.capture.specs.declared.pcapng_fault.PcapngFault.TheVariants.{OutOfMemory};
ghost use Rattle.capture.specs.Captures.{captured_record, HasCaptured};
ghost use Rattle.capture.specs.declared.capture_reader.CaptureReader.{CaptureReader};

/// Bytes spell one packet only.
pub fn bytes_spell_one_packet()
    ensures { (parts others : Parts) → packet_bytes parts ≡ packet_bytes others → parts ≡ others }
{}

/// A reader that has taken a whole pcap file, in whatever pieces, has given its records and no
/// others, knows its header and holds nothing back. So what is written is read back, where each
/// record has at most 1 MiB and is written in the byte order of the header.
pub fn a_whole_file_is_given()
    ensures { (state : PcapState) (header : PcapHeader) (records given : List RecordParts)
        → FitsHeader header → AllByRecursion IsRecord records
        → StandsFor state given (file_bytes header records)
        → (given ≡ records) × (state.header ≡ Some header) × (state.pending ≡ []) }
{}

/// A reader that has taken whole blocks of a pcapng file, in whatever pieces, has given the packets
/// that they tell of and no others, knows their last section and holds nothing back.
pub fn whole_blocks_are_given()
    ensures { (state : PcapngState) (blocks : List Block) (section : Option SectionParts)
        (records given : List CaptureParts) → AllByRecursion IsBlock blocks
        → Tell None blocks section records → HasRead state given (blocks_bytes blocks)
        → (given ≡ records) × (state.section ≡ section) × (state.passing ≡ None)
        × (state.pending ≡ []) }
{}

/// Whole blocks of a pcapng file, and whatever comes of them first, have no fault: of them a reader
/// reports at most that an allocation failed.
pub fn whole_blocks_have_no_fault()
    ensures { (fault : PcapngFault) (blocks : List Block) (section : Option SectionParts)
        (records given : List CaptureParts) (bytes rest : List ℕ) → AllByRecursion IsBlock blocks
        → Tell None blocks section records → blocks_bytes blocks ≡ bytes ++ rest
        → HasFault given bytes fault → fault ≡ OutOfMemory }
{}

/// A reader of captures that has taken a whole file of either format, in whatever pieces, has given
/// its packets and no others.
pub fn a_whole_capture_is_given()
    ensures pcap { (reader : CaptureReader) (header : PcapHeader) (records : List RecordParts)
        (given : List CaptureParts) → FitsHeader header → AllByRecursion IsRecord records
        → HasCaptured reader given (file_bytes header records)
        → given ≡ map (captured_record header) records }
    ensures pcapng { (reader : CaptureReader) (blocks : List Block) (section : Option SectionParts)
        (records given : List CaptureParts) → AllByRecursion IsBlock blocks
        → Tell None blocks section records → HasCaptured reader given (blocks_bytes blocks)
        → given ≡ records }
{}
