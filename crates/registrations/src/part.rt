//! The parts of messages that tell a modem its service flows.
ghost use Rattle.std.specs.Prelude.{◌≡◌, IfOk};
ghost use Rattle.capture.specs.Packet.{Parts, packet_bytes, IsPacket};
ghost use Rattle.registrations.specs.Message.{Gives, management_seen};
ghost use Rattle.registrations.specs.Part.{part_in, response_in, change_in, numbered, part_of};
ghost use Rattle.registrations.specs.Part.{part_seen, SpellsPart};

use crate::message::{Management, NoPart, management_in, message_in};
use capture::{Packet, read_packet};

/// The type of the message REG-RSP-MP.
const REG_RSP_MP: u8 = 45;
/// The type of the message DBC-REQ.
const DBC_REQ: u8 = 36;

/// A message that tells a modem its service flows, without what it tells.
#[derive(Clone, Copy, Debug, PartialEq, Eq)]
pub enum MessageName {
    /// A multipart registration response, REG-RSP-MP: the modem's primary SID, and the response,
    /// which is 0 where the modem is let in.
    RegRspMp { sid: u16, response: u8 },
    /// A dynamic bonding change request, DBC-REQ, by its transaction.
    DbcReq { transaction: u16 },
}

/// A part of a message.
#[derive(Clone, Copy, Debug, PartialEq, Eq)]
pub struct Part<'a> {
    /// The address of the modem that it is sent to, of 48 bits.
    pub modem: u64,
    pub message: MessageName,
    /// How many parts the message has, 1 or more.
    pub of: u8,
    /// Which of them this one is, 1 to `of`.
    pub number: u8,
    /// The bytes of the message's TLVs that are in this part. A TLV may begin in one part and end
    /// in the next.
    pub tlvs: &'a [u8],
}

/// The part of a message that the bytes of a packet of link type 273 hold. What is asked first: the
/// packet, its type, the frame control, the frame's length and its check sequences, the message's
/// length, its type, and at last the part's numbers.
pub fn read_part(bytes: &[u8]) -> Result<Part<'_>, NoPart>
    // Of bytes that spell a packet: what its type and its payload say.
    ensures spelled { (parts : Parts) → bytes.now ≡ packet_bytes parts
        → Gives part_seen result (part_of parts) }
    // Bytes that spell no packet are malformed.
    ensures unspelled { ((parts : Parts) → bytes.now ≡ packet_bytes parts → ⊥)
        → result ≡ Err NoPart.Malformed }
    // What is found is in the bytes.
    ensures found { IfOk result (SpellsPart bytes.now) }
{
    match read_packet(bytes) {
        Some(packet) => part_in_packet(&packet),
        None => Err(NoPart::Malformed),
    }
}

/// The part in a packet.
fn part_in_packet<'a>(packet: &Packet<'a>) -> Result<Part<'a>, NoPart>
    ensures { (parts : Parts) → IsPacket parts packet.now
        → Gives part_seen result (part_of parts) }
{
    if !matches!(packet.kind, 1 | 8 | 11) {
        return Err(NoPart::OtherType);
    }
    let message = message_in(packet.payload)?;
    let management = management_in(message)?;
    part_in(&management)
}

/// The part that a message is.
fn part_in<'a>(message: &Management<'a>) -> Result<Part<'a>, NoPart>
    ensures { Gives part_seen result (part_in (management_seen message.now)) }
{
    match message.kind {
        REG_RSP_MP => response_in(message.modem, message.body),
        DBC_REQ => change_in(message.modem, message.body),
        _ => Err(NoPart::OtherMessage),
    }
}

/// The part that the body of a REG-RSP-MP is.
fn response_in(modem: u64, body: &[u8]) -> Result<Part<'_>, NoPart>
    ensures { Gives part_seen result (response_in modem body.now) }
{
    let [high, low, response, of, number, tlvs @ ..] = body else {
        return Err(NoPart::Malformed);
    };
    let sid = u16::from_be_bytes([*high, *low]);
    numbered(Part {
        modem,
        message: MessageName::RegRspMp {
            sid,
            response: *response,
        },
        of: *of,
        number: *number,
        tlvs,
    })
}

/// The part that the body of a DBC-REQ is.
fn change_in(modem: u64, body: &[u8]) -> Result<Part<'_>, NoPart>
    ensures { Gives part_seen result (change_in modem body.now) }
{
    let [high, low, of, number, tlvs @ ..] = body else {
        return Err(NoPart::Malformed);
    };
    let transaction = u16::from_be_bytes([*high, *low]);
    numbered(Part {
        modem,
        message: MessageName::DbcReq { transaction },
        of: *of,
        number: *number,
        tlvs,
    })
}

/// The part, if it is one of as many as it says.
fn numbered(part: Part<'_>) -> Result<Part<'_>, NoPart>
    ensures { Gives part_seen result (numbered (part_seen part.entry)) }
{
    if part.number < 1 || part.number > part.of {
        return Err(NoPart::Malformed);
    }
    Ok(part)
}
