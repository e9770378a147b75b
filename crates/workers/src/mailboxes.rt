//! The mailboxes of a running receiver.
ghost use Rattle.std.specs.Prelude.{IfOk};
ghost use Rattle.workers.specs.Inside.Opening.{IsOpenMailbox};

use mailbox::{Mouth, Ports, open};
use std::alloc::{AllocError, Global};

/// The five ports of a mailbox, and its mouth.
#[derive(Drop)]
pub struct OpenMailbox<T> {
    pub ports: Ports<T>,
    pub mouth: Mouth<T>,
}

/// A mailbox with room for so many entries, into which nothing was posted.
pub fn open_mailbox<T: Drop>(alloc: Global, capacity: u16) -> Result<OpenMailbox<T>, AllocError>
    ensures { IfOk result (IsOpenMailbox capacity) }
{
    let Ok((ports, mouth)) = open(alloc, capacity) else {
        return Err(AllocError);
    };
    Ok(OpenMailbox { ports, mouth })
}
