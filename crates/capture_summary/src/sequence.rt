//! The frame check sequence in a frame.
ghost use Rattle.std.specs.Prelude.{◌≡◌, take, drop, option_map};
ghost use Rattle.capture_summary.specs.Elements.{front_element};
ghost use Rattle.capture_summary.specs.Sequence.{is_encrypted, says_encrypted};
ghost use Rattle.capture_summary.specs.Sequence.{ends_with_its_sequence, extended_length};
ghost use Rattle.capture_summary.specs.Sequence.{sequence_in, sequence_of};
ghost use Rattle.capture_summary.specs.Seen.{element_parts};

use docsis_wire::frame_check_sequence;

/// What is known of the frame check sequence of the Ethernet frame in a frame.
#[derive(Clone, Copy, Debug, PartialEq, Eq)]
pub enum FrameSequence {
    Right,
    /// It is wrong, or the Ethernet frame has fewer than the four bytes of one.
    Wrong,
    /// The Ethernet frame is encrypted, so nothing is known.
    Encrypted,
    /// The frame isn't a packet's.
    NotThere,
}

/// An element of an extended header.
#[derive(Clone, Copy)]
struct Element<'a> {
    kind: u8,
    value: &'a [u8],
}

/// The element at the front, and what follows it, unless it overruns the bytes.
fn split_element(bytes: &[u8]) -> Option<(Element<'_>, &[u8])>
    ensures { option_map (λ split. (element_parts split.0, split.1.now)) result
        ≡ front_element bytes.now }
{
    let (head, rest) = bytes.split_first()?;
    let (value, others) = rest.split_at_checked(usize::from(*head % 16))?;
    let kind = *head / 16;
    Some((Element { kind, value }, others))
}

/// Whether an element says that the frame is encrypted.
fn says_encrypted(element: &Element<'_>) -> bool
    ensures { result ≡ says_encrypted (element_parts element.now) }
{
    match element.value {
        [_, second, ..] => matches!(element.kind, 3 | 7) && *second >= 128,
        _ => false,
    }
}

/// Whether an extended header says that the frame is encrypted.
fn is_encrypted(extended: &[u8]) -> bool
    ensures { result ≡ is_encrypted extended.now }
{
    let mut rest = extended;
    while let Some((element, others)) = split_element(rest) {
        if says_encrypted(&element) {
            return true;
        }
        rest = others;
    }
    false
}

/// Whether an Ethernet frame ends with its check sequence.
fn ends_with_its_sequence(ethernet: &[u8]) -> bool
    ensures { result ≡ ends_with_its_sequence ethernet.now }
{
    match ethernet.split_last_chunk::<4>() {
        Some((front, sequence)) => frame_check_sequence(front) == u32::from_le_bytes(*sequence),
        None => false,
    }
}

/// What is known of a packet's frame with this extended header and this Ethernet frame.
fn sequence_in(extended: &[u8], ethernet: &[u8]) -> FrameSequence
    ensures { result ≡ sequence_in extended.now ethernet.now }
{
    if is_encrypted(extended) {
        FrameSequence::Encrypted
    } else if ends_with_its_sequence(ethernet) {
        FrameSequence::Right
    } else {
        FrameSequence::Wrong
    }
}

/// How many bytes the extended header has.
fn extended_length(fc: u8, parm: u8) -> usize
    ensures { result ≡ extended_length fc parm }
{
    if fc % 2 == 1 { usize::from(parm) } else { 0 }
}

/// The bytes up to a place, and those behind it: none where the place lies past the end.
fn split_near(bytes: &[u8], place: usize) -> (&[u8], &[u8])
    ensures front { result.0.now ≡ take place bytes.now }
    ensures others { result.1.now ≡ drop place bytes.now }
{
    bytes.split_at(place.min(bytes.len()))
}

/// What is known of the frame check sequence in a MAC frame. Only a packet's frame has one, whose
/// FC is 0x00 or 0x01 (CM-SP-MULPIv3.0, packet PDU MAC header format). It can't be looked at where
/// an element of the extended header, of type 3 or 7, has ENABLE set, the top bit of the second
/// byte of its value: the Ethernet frame is encrypted then.
///
/// A frame has at least six bytes. Of fewer than four `NotThere` is answered.
pub fn sequence_of(frame: &[u8]) -> FrameSequence
    ensures { result ≡ sequence_of frame.now }
{
    let Some((front, others)) = frame.split_first_chunk::<4>() else {
        return FrameSequence::NotThere;
    };
    let [fc, parm, _, _] = *front;
    if fc > 1 {
        return FrameSequence::NotThere;
    }
    let (extended, rest) = split_near(others, extended_length(fc, parm));
    let (_, ethernet) = split_near(rest, 2);
    sequence_in(extended, ethernet)
}
