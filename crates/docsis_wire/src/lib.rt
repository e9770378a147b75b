//! The wire formats of a bonded upstream: the header of a segment and the generic MAC header of a
//! frame, and how a modem cuts frames into segments.
//!
//! A segment is eight bytes of header and a payload. A frame is a generic MAC frame of 6 to 65,541
//! bytes. Continuous concatenation and fragmentation puts a flow's frames end to end and cuts them
//! into payloads anywhere (CM-SP-MULPIv3.0). Payloads and frames are [`Bytes`], which may stand in
//! the memory of the burst that they came in.
//!
//! The calls, in the order of use:
//!
//! 1. [`Segment::read`] makes a segment of a burst's bytes, or says that they are too few or that
//!    the pointer leads past the payload; [`Segment::from_burst`] makes it of the burst's own
//!    buffer, and [`Segment::head_of`] answers its header alone. [`ready`] asks the same of a
//!    segment that is there, and a [`ReadySegment`] keeps the answer. [`read_segment`] and
//!    [`write_segment`] read and write the header alone.
//! 2. [`read_head`] tells from the front of some bytes how long a frame is, whatever follows it,
//!    and [`well_formed`] whether bytes are one whole frame. A [`HeaderCheck`] may be handed in
//!    that looks at a frame's header: [`HeaderSequence`] asks for its check sequence, [`NoCheck`]
//!    lets each pass.
//! 3. [`check_sequence`] is the header check sequence of headers of either kind, [`segment_check`]
//!    asks a segment header for it, and [`frame_check_sequence`] is that of an Ethernet frame.
//! 4. [`cut`] is the sending side: of frames and [`Piece`]s it makes the segments, or reports the
//!    first fault. [`Cutter`] gives the same segments one at a time, and [`SegmentParts`] the
//!    payload of one part by part, so that they need not all be held.
//!
//! What matters most: `read_segment` reads exactly the header that eight bytes spell; `well_formed`
//! says yes to exactly the frames of the grammar `IsFrame`; a check sequence is what the division
//! of polynomials leaves that the standard says; and what `cut` makes is one lawful cut by the
//! definition `IsLawfulCut`, on which everything above rests. [`laws`] says what follows from the
//! definitions alone, as that what is written is read back.
//!
//! Callers that are proved: `crates/uses/src/burst.rt` feeds a burst's segment to a joiner,
//! `crates/uses/src/header_check.rt` asks for check sequences first, and
//! `crates/uses/src/cut_joined_again.rt` cuts frames and joins them again.
#![tactic(auto)]

mod buffer;
mod cursor;
mod cutter;
mod frame;
mod frame_remainders;
mod frame_sequence;
mod header;
mod header_check;
mod header_sequence;
pub mod laws;
mod pieces;
mod segment;
mod segment_parts;
mod sparse_multiple;

pub use buffer::Bytes;
pub use cutter::{Cutter, cut};
pub use frame::{HeadFault, HeadRead, read_head, well_formed};
pub use frame_sequence::frame_check_sequence;
pub use header::{SEQUENCE_MODULUS, SegmentHeader};
pub use header_check::{HeaderCheck, NoCheck};
pub use header_sequence::{HeaderSequence, check_sequence, segment_check};
pub use pieces::{CutFault, FillByte, Piece};
pub use segment::{
    HEADER_BYTES, ReadySegment, RefusedBurst, Segment, SegmentFault, read_segment, ready,
    write_segment,
};
pub use segment_parts::SegmentParts;
