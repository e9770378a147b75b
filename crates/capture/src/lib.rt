//! Recordings of DOCSIS upstreams: pcap and pcapng files, and the bursts in them.
//!
//! An analyser such as the Excentis XRA-31 writes each upstream burst as a packet of link type 273
//! (LINKTYPE_DOCSIS31_XRA31): a header of four bytes, TLVs that describe the burst, and the burst's
//! bytes. This crate reads files of such packets and writes them. It knows no flows and no channels
//! of a receiver.
//!
//! The calls, in the order of use:
//!
//! 1. [`PcapReader`] takes a pcap file in pieces of any size: [`PcapReader::take`] gives a
//!    [`Record`] as soon as its last byte is there, [`PcapReader::header`] the file's header with
//!    its link type, and [`PcapReader::finish`] tells whether the file may end here. It holds the
//!    bytes of one record at most.
//! 2. [`PcapngReader`] takes a pcapng file so: [`PcapngReader::take`] gives a [`CaptureRecord`],
//!    with its link type and its time in nanoseconds, as soon as its block is there. It holds one
//!    block at most.
//! 3. [`CaptureReader`] takes a file of either format, is one of the two by its first byte, and
//!    gives [`CaptureRecord`]s.
//! 4. [`burst_in_record`] and [`burst_in_capture`] make a [`Burst`] of a record, with its channel,
//!    its SID, its grant and the bytes of its segment, or say by [`Passed`] why the record is
//!    passed over. [`read_burst`] does so for the bytes of a packet.
//! 5. [`read_packet`] reads a packet of any type: version, type, TLVs and payload.
//!    [`split_tlv`] takes the TLVs one after another, [`last_value`] looks one up, and [`are_tlvs`]
//!    tells whether bytes are whole TLVs.
//! 6. [`write_pcap_header`] and [`write_record`] write a file.
//!
//! What matters most: whatever bytes a reader had taken, with those of a piece it has given exactly
//! the records of all of them (`StandsFor`, `HasRead`, `HasCaptured`), and of a whole file its
//! records and no others ([`laws::a_whole_file_is_given`], [`laws::whole_blocks_are_given`],
//! [`laws::a_whole_capture_is_given`]); whole blocks of a pcapng file are never refused
//! ([`laws::whole_blocks_have_no_fault`]). A packet is read exactly if its bytes spell one, and the
//! burst is the one that the definition `burst_of` looks up in the list of its TLVs.
#![tactic(auto)]

mod burst;
mod capture_fault;
mod capture_reader;
mod capture_record;
mod endian;
pub mod laws;
mod numbers;
mod packet;
mod pcap;
mod pcap_fault;
mod pcap_parts;
mod pcap_reader;
mod pcap_step;
mod pcap_writer;
mod pcapng;
mod pcapng_fault;
mod pcapng_head;
mod pcapng_options;
mod pcapng_packet;
mod pcapng_reader;
mod pcapng_section;
mod pcapng_step;
mod record;
mod record_burst;
mod tlv;

pub use burst::{Burst, BurstKind, Passed, read_burst};
pub use capture_fault::CaptureFault;
pub use capture_reader::CaptureReader;
pub use capture_record::{CaptureRecord, CaptureTaken, XRA};
pub use endian::Endian;
pub use packet::{Packet, read_packet};
pub use pcap::{PCAP_HEADER_BYTES, PcapHeader, RECORD_HEADER_BYTES, RecordHead, Resolution};
pub use pcap_fault::PcapFault;
pub use pcap_parts::LONGEST_RECORD;
pub use pcap_reader::PcapReader;
pub use pcap_writer::{write_pcap_header, write_record};
pub use pcapng::{Interface, TimeUnit};
pub use pcapng_fault::PcapngFault;
pub use pcapng_head::LONGEST_BLOCK;
pub use pcapng_reader::PcapngReader;
pub use pcapng_section::MOST_INTERFACES;
pub use record::{Record, Taken};
pub use record_burst::{burst_in_capture, burst_in_record};
pub use tlv::{Tlv, are_tlvs, last_value, split_tlv};
