//! The pcap file of the frames that were joined of a capture's bursts, and the frames that an
//! analyser has recorded.
//!
//! Each frame is a record with the time of the burst that completed it: the frame alone, of link
//! type 143 (LINKTYPE_DOCSIS), or a packet of link type 273 (LINKTYPE_DOCSIS31_XRA31) of type 80,
//! an upstream MAC frame, whose TLVs name that burst's channel and SID, so that Wireshark filters
//! by them.
//!
//! An analyser records such packets too, of the frames that it has joined itself beside the bursts:
//! these are read here.
//!
//! The calls, in the order of use:
//!
//! 1. [`put_file_header`] once, and [`put_frame`] for each frame.
//! 2. [`recorded_frame`] gives the frame in a record of a capture, with its channel and its SID.
//!    [`burst_ids`] gives the numbers of the bursts that it came from, one after another, and
//!    [`first_burst_ids`] the first 16 of them.
//!
//! What matters most: the bytes that are put are those of the definitions `file_header` and
//! `frame_record`; a reader of pcap files gives such records back, and channel and SID stand in
//! them ([`laws`]). A frame is read exactly if the record holds one: it is the one that the
//! definition `recorded_of` looks up in the list of the packet's TLVs. So a frame that was put is
//! read back ([`laws::written_frames_are_read_back`]), with the number of its burst
//! ([`laws::written_frames_name_their_burst`]).
#![tactic(auto)]

mod file;
pub mod laws;
mod link;
mod named_bursts;
mod origin;
mod record_packet;
mod recorded;
mod tlv_number;

pub use file::{LONGEST_FRAME, put_file_header, put_frame};
pub use link::FrameLink;
pub use named_bursts::{BurstIds, MOST_BURSTS, burst_ids, first_burst_ids};
pub use origin::FrameOrigin;
pub use recorded::{RecordedFrame, recorded_frame};
