//! What a line of a map says of where it was told: the modem, the message and the time.
ghost use Rattle.std.specs.Prelude.{flat_map};
ghost use Rattle.text_lines.specs.Putting.{Puts};
ghost use Rattle.registered_map.specs.MapText.{colon_octet, modem_text, message_text, telling_text};

use crate::telling::Telling;
use registrations::MessageName;
use text_lines::{PutText, put_hex, put_number, put_seconds, put_spaced, put_word};

/// Puts a colon and the two digits of an octet.
fn put_colon_octet<O: PutText>(out: &mut O, octet: u8)
    ensures { Puts O.after out.old (colon_octet octet) out.new }
{
    put_word(out, ":");
    put_hex(out, &[octet]);
}

/// Puts octets, each behind a colon.
fn put_colon_octets<O: PutText>(out: &mut O, octets: &[u8])
    ensures { Puts O.after out.old (flat_map colon_octet octets.now) out.new }
{
    for octet in octets {
        put_colon_octet(out, *octet);
    }
}

/// Puts the address of a modem, of 48 bits.
fn put_modem<O: PutText>(out: &mut O, modem: u64)
    ensures { Puts O.after out.old (modem_text modem) out.new }
{
    let octets = modem.to_be_bytes();
    put_hex(out, &octets[2..3]);
    put_colon_octets(out, &octets[3..]);
}

/// Puts the name of a message.
fn put_message<O: PutText>(out: &mut O, message: MessageName)
    ensures { Puts O.after out.old (message_text message) out.new }
{
    match message {
        MessageName::RegRspMp { .. } => put_word(out, "REG-RSP-MP"),
        MessageName::DbcReq { transaction } => {
            put_word(out, "DBC-REQ, transaction");
            put_spaced(out, u64::from(transaction));
        }
    }
}

/// Puts by which message something was told.
pub(crate) fn put_telling<O: PutText>(out: &mut O, telling: Telling)
    ensures { Puts O.after out.old (telling_text telling) out.new }
{
    put_word(out, "modem ");
    put_modem(out, telling.modem);
    put_word(out, " at ");
    put_seconds(out, telling.nanoseconds);
    put_word(out, ", record");
    put_spaced(out, telling.place);
    put_word(out, ", by ");
    put_message(out, telling.message);
    put_word(out, "\n");
}
