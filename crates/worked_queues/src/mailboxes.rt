//! What no clause says: when a mailbox is full and when it is empty, and what becomes of items that
//! nobody takes.
ghost use Rattle.std.specs.Prelude.{◌≡◌};
ghost use Rattle.mailbox.specs.Ports.{address, closed_address};
ghost use Rattle.mailbox.specs.Mouths.{places};

mod drops;
mod failed_allocations;
mod rows;
mod threads;

use mailbox::{ClosedPort, Mouth, Port, Taken};
use std::process::Abort;
use std::sync::Wait;

// Closes a port that has room for its end mark.
fn close_port<T: Drop, R: Abort + Wait>(rt: &R, port: Port<T>) -> ClosedPort<T>
    ensures { closed_address result ≡ address port }
{
    match port.close(rt) {
        Ok(closed) => closed,
        Err(_) => panic!(rt; "no room for the end mark"),
    }
}

// A close that finds no room.
fn close_in_vain<T: Drop, R: Abort + Wait>(rt: &R, port: Port<T>) -> Port<T>
    ensures { address result ≡ address port }
{
    match port.close(rt) {
        Ok(_) => panic!(rt; "there was room for the end mark"),
        Err(port) => port,
    }
}

// Closes the port of sender `from`, and takes the end mark.
fn close_and_take<R: Abort + Wait>(
    rt: &R,
    mouth: &mut Mouth<u32>,
    port: Port<u32>,
    from: u8,
) -> ClosedPort<u32>
    ensures port { closed_address result ≡ address port }
    ensures mouth { places mouth.new ≡ places mouth.old }
{
    let closed = close_port(rt, port);
    assert!(rt; mouth.next(rt) == Taken::End { from });
    closed
}
