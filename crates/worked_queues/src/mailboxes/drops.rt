//! Items that count their drops: each is dropped once, whoever holds it last.
ghost use Rattle.std.specs.Prelude.{◌≡◌};
ghost use Rattle.mailbox.specs.Mouths.{places};

use super::close_port;
use mailbox::{ClosedPorts, Mouth, Ports, Taken, open, settle};
use std::alloc::{AllocError, Global};
use std::process::Abort;
use std::sync::atomic::{AtomicU64, Ordering};
use std::sync::{Arc, Wait};
use std::test::Fail;

struct Counted {
    drops: Arc<AtomicU64, Global>,
}

impl Drop for Counted {
    fn drop(self) {
        self.drops.fetch_add(1, Ordering::SeqCst);
        let Counted { drops: _ } = self;
    }
}

fn item(drops: &Arc<AtomicU64, Global>) -> Result<Counted, AllocError> {
    Ok(Counted {
        drops: Arc::try_clone(drops)?,
    })
}

// Takes an item and drops it.
fn take_one<R: Abort + Wait>(rt: &R, mouth: &mut Mouth<Counted>)
    ensures { places mouth.new ≡ places mouth.old }
{
    let taken = mouth.next(rt);
    assert!(rt; matches!(taken, Taken::Item { .. }));
}

#[test]
fn dropped_with_the_ports(rt: HostRuntime) -> Result<(), Fail> {
    let drops = Arc::new(rt.alloc(), AtomicU64::new(0))?;
    let (mut ports, mut mouth) = open(rt.alloc(), 3)?;
    assert!(rt; ports.p0.post(&rt, item(&drops)?).is_ok());
    assert!(rt; ports.p1.post(&rt, item(&drops)?).is_ok());
    assert!(rt; ports.p0.post(&rt, item(&drops)?).is_ok());
    assert!(rt; ports.p0.post(&rt, item(&drops)?).is_err());
    assert!(rt; drops.load(Ordering::SeqCst) == 1);
    take_one(&rt, &mut mouth);
    assert!(rt; drops.load(Ordering::SeqCst) == 2);
    drop(mouth);
    assert!(rt; drops.load(Ordering::SeqCst) == 2);
    drop(ports);
    assert!(rt; drops.load(Ordering::SeqCst) == 4);
    Ok(())
}

#[test]
fn dropped_with_the_mouth(rt: HostRuntime) -> Result<(), Fail> {
    let drops = Arc::new(rt.alloc(), AtomicU64::new(0))?;
    let (mut ports, mouth) = open(rt.alloc(), 3)?;
    assert!(rt; ports.p4.post(&rt, item(&drops)?).is_ok());
    assert!(rt; ports.p4.post(&rt, item(&drops)?).is_ok());
    drop(ports);
    assert!(rt; drops.load(Ordering::SeqCst) == 0);
    drop(mouth);
    assert!(rt; drops.load(Ordering::SeqCst) == 2);
    Ok(())
}

#[test]
fn dropped_by_settle(rt: HostRuntime) -> Result<(), Fail> {
    let drops = Arc::new(rt.alloc(), AtomicU64::new(0))?;
    let (ports, mut mouth) = open(rt.alloc(), 8)?;
    let Ports {
        p0,
        p1,
        mut p2,
        p3,
        p4,
    } = ports;
    assert!(rt; p2.post(&rt, item(&drops)?).is_ok());
    assert!(rt; p2.post(&rt, item(&drops)?).is_ok());
    assert!(rt; p2.post(&rt, item(&drops)?).is_ok());
    take_one(&rt, &mut mouth);
    let p0 = close_port(&rt, p0);
    let p1 = close_port(&rt, p1);
    let p2 = close_port(&rt, p2);
    let p3 = close_port(&rt, p3);
    let p4 = close_port(&rt, p4);
    let settled = settle(&rt, ClosedPorts { p0, p1, p2, p3, p4 }, mouth);
    assert!(rt; settled.left[2] == 2);
    assert!(rt; drops.load(Ordering::SeqCst) == 3);
    Ok(())
}
