//! What follows from the definitions alone.
ghost use Rattle.std.specs.Prelude.{◌≡◌, ◌≤◌, ◌<◌, ◌^◌, ℕ, List, [], ◌∷◌, Some, None, IfSome};
ghost use Rattle.std.specs.Prelude.{length};
ghost use Rattle.std.specs.Option.{option_to_list};
ghost use Rattle.capture.specs.Captures.{captured_record};
ghost use Rattle.capture.specs.Fields.{Field, fields_bytes, last_value};
ghost use Rattle.capture.specs.Numbers.{number_in};
ghost use Rattle.capture.specs.Pcap.{FitsHeader, IsRecord};
ghost use Rattle.capture.specs.PcapngBlocks.{CaptureParts};
ghost use Rattle.frame_records.specs.declared.link.FrameLink.{FrameLink};
ghost use Rattle.frame_records.specs.declared.link.FrameLink.TheVariants.{Xra};
ghost use Rattle.frame_records.specs.declared.origin.FrameOrigin.{FrameOrigin};
ghost use Rattle.frame_records.specs.Frames.{file_header, frame_record, longest_frame, short_bytes};
ghost use Rattle.frame_records.specs.Frames.{origin_fields};
ghost use Rattle.frame_records.specs.Recorded.{FrameParts, HoldsPacket, HoldsFrame, written_frame};
ghost use Rattle.frame_records.specs.Recorded.{written_packet};
ghost use Rattle.frame_records.specs.BurstIds.{AreBurstIds, IsFirstId};
ghost use Rattle.capture.specs.Packet.{two_bytes};

/// Header and records are such as a reader of pcap files gives back.
pub fn frames_are_records()
    ensures header { (link : FrameLink) → FitsHeader (file_header link) }
    ensures records { (link : FrameLink) (time : ℕ) (origin : FrameOrigin) (frame : List ℕ)
        → length frame ≤ longest_frame → IsRecord (frame_record link time origin frame) }
{}

/// The channel and the SID of a frame are found in its packet as those of a burst are.
pub fn origins_are_found()
    ensures channel { (origin : FrameOrigin)
        → last_value 10 (origin_fields origin) ≡ Some (short_bytes origin.channel) }
    ensures sid { (origin : FrameOrigin)
        → last_value 11 (origin_fields origin) ≡ Some (two_bytes origin.sid) }
    ensures channel_number { (n : ℕ) → n < 2 ^ 32 → number_in 4 (short_bytes n) ≡ Some n }
    ensures sid_number { (n : ℕ) → n < 2 ^ 16 → number_in 4 (two_bytes n) ≡ Some n }
{}

/// A record of a capture holds one frame at most.
pub fn a_record_holds_one_frame()
    ensures { (one : CaptureParts) (frame other : FrameParts)
        → HoldsFrame one frame → HoldsFrame one other → frame ≡ other }
{}

/// A frame that was written as a packet is read back, with its channel and its SID, and with the
/// time of its record.
pub fn written_frames_are_read_back()
    ensures { (time : ℕ) (origin : FrameOrigin) (frame : List ℕ)
        → origin.channel < 2 ^ 32 → origin.sid < 2 ^ 16
        → HoldsFrame (captured_record (file_header Xra) (frame_record Xra time origin frame))
        (written_frame time origin frame) }
{
    origins_are_found();
}

/// The packet of a frame that was written names the burst that completed the frame, where that has
/// a number.
pub fn written_frames_name_their_burst()
    ensures packet { (time : ℕ) (origin : FrameOrigin) (frame : List ℕ)
        → HoldsPacket (captured_record (file_header Xra) (frame_record Xra time origin frame))
        (written_packet origin frame) }
    ensures burst { (origin : FrameOrigin) (frame : List ℕ)
        → IfSome origin.burst_id (λ id. id < 2 ^ 64)
        → AreBurstIds (written_packet origin frame).fields (option_to_list origin.burst_id) }
{}

/// TLVs name the bursts of one list, and these are given one after another: each is the first of
/// the TLVs that are left, until there is none.
pub fn burst_ids_are_given_in_turn()
    ensures one { (fields : List Field) (ids others : List ℕ)
        → AreBurstIds fields ids → AreBurstIds fields others → ids ≡ others }
    ensures first { (fields : List Field) (id : ℕ) (tlvs : List ℕ)
        → IsFirstId fields (Some (id, tlvs))
        → (more : List Field) × (tlvs ≡ fields_bytes more)
        × ((later : List ℕ) → AreBurstIds more later → AreBurstIds fields (id ∷ later)) }
    ensures end { (fields : List Field) → IsFirstId fields None → AreBurstIds fields [] }
{}
