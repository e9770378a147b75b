//! Posting and closing until there is room.
ghost use Rattle.std.specs.Prelude.{◌≡◌, ◌++◌, ◌∷◌, []};
ghost use Rattle.mailbox.specs.Ports.{address, posted};
ghost use Rattle.workers.specs.Inside.Working.{HasPosted};

use crate::signals::MailboxSignals;
use crate::waiting::Waiting;
use mailbox::{ClosedPort, Full, Port};
use std::sync::Wait;

/// Posts an item, waits for as long as there is no room, and tells the mouth.
pub fn post_item<T: Drop, R: Wait>(rt: &R, mailbox: &MailboxSignals, port: &mut Port<T>, item: T)
    ensures address { address port.new ≡ address port.old }
    ensures posted { posted port.new ≡ posted port.old ++ item ∷ [] }
{
    let mut item = item;
    let mut waiting = Waiting::on(&mailbox.taken);
    for _ in rt.forever() {
        match port.post(rt, item) {
            Ok(()) => return mailbox.posted.notify_one(),
            Err(Full(back)) => item = back,
        }
        waiting.pause(rt);
    }
    unreachable!()
}

/// Closes a port, waits for as long as there is no room, and tells the mouth.
pub fn close_port<T: Drop, R: Wait>(
    rt: &R,
    mailbox: &MailboxSignals,
    port: Port<T>,
) -> ClosedPort<T>
    ensures { HasPosted port [] result }
{
    let mut port = port;
    let mut waiting = Waiting::on(&mailbox.taken);
    for _ in rt.forever() {
        match port.close(rt) {
            Ok(closed) => {
                mailbox.posted.notify_one();
                return closed;
            }
            Err(back) => port = back,
        }
        waiting.pause(rt);
    }
    unreachable!()
}
