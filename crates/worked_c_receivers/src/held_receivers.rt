//! Two frames in three segments on three channels, received out of order, and what comes of them.
mod failed_allocations;

ghost use Rattle.std.specs.Prelude.{IfOk};
ghost use Rattle.c_receiver.specs.Held.{IsInUse};

use c_receiver::{
    HeldReceiver, MakeFault, PlainCounts, PlainFlow, PlainFrame, PlainRequest, PlainRow, Status,
};
use std::alloc::Global;
use std::process::Abort;
use std::test::Fail;

/// The segments, by their channels. The header has eight bytes: of the first a frame begins at
/// once, of the second behind one byte, of the third none does. The second asks for four units.
const FIRST: [u8; 15] = [0x80, 0, 0, 0, 0, 0, 0, 0, 0, 0, 0, 2, 0x11, 0x11, 0xaa];

const SECOND: [u8; 14] = [0x80, 1, 0, 8, 0, 4, 0, 0, 0xbb, 1, 1, 0, 3, 0xe0];

const THIRD: [u8; 12] = [0, 0, 0, 16, 0, 0, 0, 0, 0x22, 0x22, 0xcc, 0xdd];

/// The two frames.
const FIRST_FRAME: [u8; 8] = [0, 0, 0, 2, 0x11, 0x11, 0xaa, 0xbb];

const SECOND_FRAME: [u8; 9] = [1, 1, 0, 3, 0xe0, 0x22, 0x22, 0xcc, 0xdd];

/// The request of the second segment.
const REQUEST: PlainRequest = PlainRequest {
    flow: 0,
    units: 4,
    sequence: 1,
    channel: 1,
    cluster: 0,
};

/// A receiver of three channels and one flow, which decisions alone hold to be lost.
fn made(alloc: Global) -> Result<HeldReceiver, MakeFault>
    ensures { IfOk result IsInUse }
{
    let flow = PlainFlow {
        sfid: 100,
        first: 0,
        window: 16,
        clusters: 2,
    };
    let row = |channel| PlainRow {
        flow: 0,
        sid: 17,
        channel,
    };
    HeldReceiver::new(alloc, 3, &[flow], &[row(0), row(1), row(2)], 0)
}

/// What nothing was counted of.
fn no_counts() -> PlainCounts {
    PlainCounts {
        kept: 0,
        late: 0,
        repeat: 0,
        beyond: 0,
        lost: 0,
        frames: 0,
        skipped: 0,
    }
}

/// Takes the first request that waits, and compares it.
fn expect_request(rt: &impl Abort, held: &mut HeldReceiver)
    requires { IsInUse held.old }
    ensures { IsInUse held.new }
{
    let mut request = PlainRequest {
        units: 9,
        ..REQUEST
    };
    assert!(rt; held.next_request(&mut request) == Status::Done);
    assert!(rt; request == REQUEST);
}

/// Takes the first frame that waits, and compares it with this one.
fn expect_frame(rt: &impl Abort, held: &mut HeldReceiver, wanted: &[u8])
    requires { IsInUse held.old }
    ensures { IsInUse held.new }
{
    let (mut room, mut frame) = ([0_u8; 9], PlainFrame { flow: 7, length: 0 });
    assert!(rt; held.next_frame(&mut room, &mut frame) == Status::Done);
    assert!(rt; frame.flow == 0);
    assert!(rt; room.get(..frame.length) == Some(wanted));
}

/// Lends the first frame that waits, and compares it with this one.
fn expect_lent(rt: &impl Abort, held: &mut HeldReceiver, wanted: &[u8])
    requires { IsInUse held.old }
    ensures { IsInUse held.new }
{
    let mut frame = PlainFrame { flow: 7, length: 0 };
    assert!(rt; held.lend_frame(&mut frame) == Status::Done);
    assert!(rt; frame.flow == 0);
    assert!(rt; frame.length == wanted.len());
    assert!(rt; held.lent_bytes() == wanted);
}
