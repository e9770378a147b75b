//! What follows from the definitions alone.
ghost use Rattle.std.specs.Prelude.{◌≡◌, ◌↔◌, ℕ, List, nat_le, if◌then◌else◌};
ghost use Rattle.docsis_wire.specs.Frame.{IsGenericFrame};
ghost use Rattle.capture_summary.specs.Elements.{Element, HasElements, elements_of};
ghost use Rattle.capture_summary.specs.Sequence.{sequence_in, sequence_of};
ghost use Rattle.capture_summary.specs.declared.sequence.FrameSequence.TheVariants.{NotThere};

/// The bytes of an extended header are one list of elements, end to end up to one that overruns
/// them.
pub fn extended_headers_have_one_list_of_elements()
    ensures { (bytes : List ℕ) (elements : List Element)
        → HasElements bytes elements ↔ (elements ≡ elements_of bytes) }
{}

/// Of a frame what is looked at is the extended header and what follows the header.
pub fn parts_of_frames_are_looked_at()
    ensures { (frame : List ℕ) (generic : IsGenericFrame frame) → sequence_of frame
        ≡ (if nat_le generic.fc 1 then sequence_in generic.ehdr generic.rest else NotThere) }
{}
