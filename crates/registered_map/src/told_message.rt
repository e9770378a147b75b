//! What a whole message tells a modem.
ghost use Rattle.std.specs.Prelude.{◌≡◌, IfOk};
ghost use Rattle.registrations.specs.Joining.{whole_seen};
ghost use Rattle.registered_map.specs.Registered.{is_let_in, told_in};

use registrations::{MessageName, Told, ToldFault, WholeMessage, told_by};
use std::alloc::{AllocError, Global};

/// Whether a modem does what a message tells: one whose registration is refused doesn't.
fn is_let_in(message: MessageName) -> bool
    ensures { result ≡ is_let_in message }
{
    match message {
        MessageName::RegRspMp { response, .. } => response == 0,
        MessageName::DbcReq { .. } => true,
    }
}

/// What a message tells a modem that does it, nothing where a TLV is malformed.
pub(crate) fn told_in(alloc: Global, message: &WholeMessage) -> Result<Vec<Told>, AllocError>
    ensures { IfOk result (λ told. told.items ≡ told_in (whole_seen message.now)) }
{
    if !is_let_in(message.message) {
        return Ok(Vec::new(alloc));
    }
    match told_by(alloc, &message.tlvs) {
        Ok(told) => Ok(told),
        Err(ToldFault::Malformed) => Ok(Vec::new(alloc)),
        Err(ToldFault::OutOfMemory) => Err(AllocError),
    }
}
