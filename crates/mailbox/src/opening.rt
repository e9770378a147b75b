//! Making a mailbox.
ghost use Rattle.std.specs.Prelude.{◌≡◌, ◌<◌, ◌+◌, ◌↔◌, [], IfOk, Err};
ghost use Rattle.std.specs.Arc.{arc_value};
ghost use Rattle.crossbeam_queue.specs.Passes.{view, IsPassOf, ruled_capacity};
ghost use Rattle.mailbox.specs.Inside.Delivers.{mouth};
ghost use Rattle.mailbox.specs.Ports.{address, posted, port_capacity};
ghost use Rattle.mailbox.specs.Mouths.{places};
ghost use Rattle.mailbox.specs.Openings.{addresses, HaveCapacity, NonePosted, NoneTaken};

use crate::entry::Stamped;
use crate::mouth::Mouth;
use crate::port::{Port, Queue};
use crate::rule::NewPort;
use crate::view::View;
use crossbeam_queue::Pass;
use std::alloc::{AllocError, Global};
use std::sync::Arc;
use thiserror::Error;

/// The five senders of one mailbox. Sender k is `pk`.
#[derive(Drop)]
pub struct Ports<T> {
    pub p0: Port<T>,
    pub p1: Port<T>,
    pub p2: Port<T>,
    pub p3: Port<T>,
    pub p4: Port<T>,
}

/// Why no mailbox was made.
#[derive(Debug, PartialEq, Eq, Drop, Error)]
pub enum OpenFault {
    /// The capacity is 0.
    #[error("a mailbox needs room for an entry")]
    NoCapacity,
    /// There is no memory for the mailbox.
    #[error("out of memory")]
    OutOfMemory,
}

impl From<AllocError> for OpenFault {
    ghost use Rattle.std.specs.Prelude.{◌≡◌};
    ghost use Rattle.mailbox.specs.declared.opening.OpenFault.{OpenFault};

    ghost from_gives = { λ _ fault. fault ≡ OpenFault.OutOfMemory };

    fn from(_refused: AllocError) -> OpenFault {
        OpenFault::OutOfMemory
    }
}

/// Opens a mailbox with room for `capacity` entries, 1 to 65,535, of all senders together; 0 is
/// `NoCapacity`. An end
/// mark is an entry too. No other call takes memory.
pub fn open<T: Drop>(alloc: Global, capacity: u16) -> Result<(Ports<T>, Mouth<T>), OpenFault>
    ensures no_capacity { (result ≡ Err OpenFault.NoCapacity) ↔ (capacity ≡ 0) }
    ensures places { IfOk result (λ opened. addresses opened.0 ≡ places opened.1) }
    ensures posted { IfOk result (λ opened. NonePosted opened.0) }
    ensures taken { IfOk result (λ opened. NoneTaken opened.1) }
    ensures capacity { IfOk result (λ opened. HaveCapacity opened.0 opened.1 capacity) }
{
    if capacity == 0 {
        return Err(OpenFault::NoCapacity);
    }
    let (queue, mut pass) = Queue::ruled(alloc, usize::from(capacity))?;
    let Ok(queue) = Arc::new(alloc, queue) else {
        return Err(OpenFault::OutOfMemory);
    };
    let p0 = new_port(&queue, &mut pass, 0)?;
    let p1 = new_port(&queue, &mut pass, 1)?;
    let p2 = new_port(&queue, &mut pass, 2)?;
    let p3 = new_port(&queue, &mut pass, 3)?;
    let p4 = new_port(&queue, &mut pass, 4)?;
    let mouth = Mouth {
        queue,
        pass,
        ends: [false; 5],
    };
    Ok((Ports { p0, p1, p2, p3, p4 }, mouth))
}

// Splits off the pass of port `from`.
fn new_port<T: Drop>(
    queue: &Arc<Queue<T>, Global>,
    pass: &mut Pass<Stamped<T>, View<T>>,
    from: u8,
) -> Result<Port<T>, AllocError>
    requires of_queue { IsPassOf (arc_value queue.now) pass.old }
    requires next { (view pass.old ≡ mouth [] from []) × (from < 5) }
    ensures of_queue { IsPassOf (arc_value queue.now) pass.new }
    ensures next { IfOk result (λ _. view pass.new ≡ mouth [] (from + 1) []) }
    ensures address { IfOk result (λ port. address port ≡ (pass.old.table_id, from)) }
    ensures same { pass.new.table_id ≡ pass.old.table_id }
    ensures posted { IfOk result (λ port. posted port ≡ []) }
    ensures capacity { IfOk result
        (λ port. port_capacity port ≡ ruled_capacity (arc_value queue.now)) }
{
    let theirs = Arc::try_clone(queue)?;
    let mine: &Queue<T> = queue;
    let pass = mine.another::<NewPort>(pass);
    Ok(Port {
        queue: theirs,
        pass,
        from,
    })
}
