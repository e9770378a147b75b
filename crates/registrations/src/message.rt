//! MAC management messages, each in a frame of its own.
ghost use Rattle.std.specs.Prelude.{◌≡◌, ◌≤◌, length};
ghost use Rattle.registrations.specs.Message.{Gives, message_of, last_sequence, is_right, is_whole};
ghost use Rattle.registrations.specs.Message.{message_in, management_in, management_seen};

use byteorder::{BigEndian, ByteOrder, LittleEndian};
use docsis_wire::{HeaderCheck, HeaderSequence, frame_check_sequence};

/// The frame control of a MAC management message: type 3, parameter 1, no extended header.
const MANAGEMENT: u8 = 0xC2;
/// A frame of a message has a header of six bytes and a frame check sequence of four.
const FRAME_BYTES: usize = 10;
/// A message has so many bytes before its body.
const MESSAGE_HEAD_BYTES: usize = 20;
/// Its length counts what follows so many of them.
const ADDRESS_BYTES: usize = 14;

/// Why a packet has no part of a message that tells a modem its service flows.
#[derive(Clone, Copy, Debug, PartialEq, Eq)]
pub enum NoPart {
    /// The capture kept fewer bytes than the packet had.
    CutShort,
    /// The packet's type is none of 1, 8 and 11, so it is no frame of the downstream.
    OtherType,
    /// The frame control isn't that of a MAC management message, 0xC2.
    OtherFrame,
    /// The frame hasn't the length that it says, or one of its two check sequences is wrong.
    Damaged,
    /// The message is neither a REG-RSP-MP nor a DBC-REQ.
    OtherMessage,
    /// The bytes spell no packet, the message no message of its length, or the part is none of as
    /// many parts as it says.
    Malformed,
}

/// A MAC management message.
#[derive(Clone, Copy, Debug, PartialEq, Eq)]
pub(crate) struct Management<'a> {
    /// The address of the modem that it is sent to, of 48 bits.
    pub(crate) modem: u64,
    /// Its type.
    pub(crate) kind: u8,
    /// What follows the reserved byte behind its type.
    pub(crate) body: &'a [u8],
}

/// The message in a frame, and the frame check sequence behind it.
fn split_frame(frame: &[u8]) -> (&[u8], u32)
    requires { 10 ≤ length frame.now }
    ensures message { result.0.now ≡ message_of frame.now }
    ensures sequence { result.1 ≡ last_sequence frame.now }
{
    let (front, sequence) = frame.split_at(frame.len() - 4);
    (&front[6..], LittleEndian::read_u32(sequence))
}

/// Whether both check sequences of a frame are right.
fn is_right(frame: &[u8]) -> bool
    requires { 10 ≤ length frame.now }
    ensures { result ≡ is_right frame.now }
{
    let (message, sequence) = split_frame(frame);
    HeaderSequence.passes(&frame[..6]) && frame_check_sequence(message) == sequence
}

/// Whether a frame of a message has the length that its header says, and the right check sequences.
fn is_whole(frame: &[u8]) -> bool
    ensures { result ≡ is_whole frame.now }
{
    frame.len() >= FRAME_BYTES
        && frame.len() == 6 + usize::from(BigEndian::read_u16(&frame[2..]))
        && is_right(frame)
}

/// The message in a frame.
pub(crate) fn message_in(frame: &[u8]) -> Result<&[u8], NoPart>
    ensures { Gives (λ message. message.now) result (message_in frame.now) }
{
    if frame.first() != Some(&MANAGEMENT) {
        return Err(NoPart::OtherFrame);
    }
    if !is_whole(frame) {
        return Err(NoPart::Damaged);
    }
    Ok(split_frame(frame).0)
}

/// A message's modem, type and body.
pub(crate) fn management_in(message: &[u8]) -> Result<Management<'_>, NoPart>
    ensures { Gives management_seen result (management_in message.now) }
{
    if message.len() < MESSAGE_HEAD_BYTES {
        return Err(NoPart::Malformed);
    }
    let length = usize::from(BigEndian::read_u16(&message[12..]));
    if message.len() != ADDRESS_BYTES + length {
        return Err(NoPart::Malformed);
    }
    Ok(Management {
        modem: BigEndian::read_uint(message, 6),
        kind: message[18],
        body: &message[MESSAGE_HEAD_BYTES..],
    })
}
