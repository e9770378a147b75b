//! Five threads post into a mailbox with room for one entry, and the test's thread takes.
ghost use Rattle.std.specs.Prelude.{◌≡◌, IfOk};
ghost use Rattle.mailbox.specs.Ports.{address, closed_address};

use mailbox::{ClosedPort, ClosedPorts, Full, Port, Ports, Settled, Taken, open, settle};
use std::alloc::AllocError;
use std::snapshot::Snapshot;
use std::sync::Wait;
use std::test::Fail;
use std::thread;
use std::thread::{Promise, PromisedHandle, Threads};

// The port comes back closed.
#[derive(Drop)]
struct Closes(Snapshot<Port<u32>>);

impl Promise<ClosedPort<u32>> for Closes {
    ghost kept_by = { λ p r. closed_address r ≡ address p.0.value };
}

fn start<R: Threads + Wait + Copy + Send + 'static>(
    rt: R,
    port: Port<u32>,
) -> Result<PromisedHandle<ClosedPort<u32>, Closes>, AllocError>
    ensures { IfOk result (λ h. h.promise.0.value ≡ port) }
{
    let promise = Closes(Snapshot::of(&port));
    Ok(thread::spawn_with(&rt, promise, move || { post_hundred(&rt, port) })?)
}

// Posts 0 to 99 and closes, and tries again where there is no room.
fn post_hundred<R: Wait>(rt: &R, port: Port<u32>) -> ClosedPort<u32>
    ensures { closed_address result ≡ address port }
{
    let mut port = port;
    for item in 0..100 {
        post(rt, &mut port, item);
    }
    for _ in rt.forever() {
        match port.close(rt) {
            Ok(closed) => return closed,
            Err(back) => port = back,
        }
        thread::yield_now();
    }
    unreachable!()
}

fn post<R: Wait>(rt: &R, port: &mut Port<u32>, item: u32)
    ensures { address port.new ≡ address port.old }
{
    let mut item = item;
    for _ in rt.forever() {
        match port.post(rt, item) {
            Ok(()) => return,
            Err(Full(back)) => item = back,
        }
        thread::yield_now();
    }
    unreachable!()
}

#[test]
fn five_threads(rt: HostRuntime) -> Result<(), Fail> {
    let (ports, mut mouth) = open::<u32>(rt.alloc(), 1)?;
    let Ports { p0, p1, p2, p3, p4 } = ports;
    let t0 = start(rt, p0)?;
    let t1 = start(rt, p1)?;
    let t2 = start(rt, p2)?;
    let t3 = start(rt, p3)?;
    let t4 = start(rt, p4)?;
    let mut next = [0; 5];
    for _ in rt.forever() {
        if mouth.all_ended() {
            break;
        }
        match mouth.next(&rt) {
            Taken::Item { from, item } => {
                assert!(rt; next[usize::from(from)] == item);
                assert!(rt; item < 100);
                next[usize::from(from)] += 1;
            }
            Taken::End { from } => assert!(rt; next[usize::from(from)] == 100),
            Taken::Empty => thread::yield_now(),
        }
    }
    assert!(rt; next == [100; 5]);
    let ports = ClosedPorts {
        p0: t0.join(&rt),
        p1: t1.join(&rt),
        p2: t2.join(&rt),
        p3: t3.join(&rt),
        p4: t4.join(&rt),
    };
    let settled = settle(&rt, ports, mouth);
    assert!(rt; settled == Settled { left: [0; 5] });
    Ok(())
}
