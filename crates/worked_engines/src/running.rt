//! Traces that are received on threads: what doesn't depend on their schedule, and that frames and
//! requests are taken at once.
use commands::run_text;
use docsis_wire::Bytes;
use engines::{Device, EngineFault};
use std::alloc::{AllocError, Global};
use std::sync::atomic::{AtomicU64, Ordering};
use std::sync::{Arc, Wait};
use std::test::Fail;
use std::thread;
use std::thread::Threads;
use uplink::{NoTap, Request, Tap, Taps};
use worked_texts::text_samples::{LOST_REPORT, LOST_TRACE};

/// Receives a trace with room for one entry in each mailbox and ring, and writes the report.
fn run_with_room_for_one<F, Q, T>(
    alloc: Global,
    rt: T,
    trace: &str,
    taps: Taps<F, Q>,
    report: &mut Vec<u8>,
) -> Result<(), EngineFault>
where
    F: Tap<Bytes> + Drop + Send + 'static,
    Q: Tap<Request> + Drop + Send + 'static,
    T: Threads + Wait + Copy + Send + 'static,
{
    let mut reader = Device::new(trace.as_bytes());
    let mut writer = Device::new(report);
    let done = run_text(alloc, rt, 1, 1, taps, &mut reader, &mut writer);
    reader.into_inner();
    writer.into_inner();
    done
}

/// The lanes of a report where nothing came in.
const NOTHING_CAME: &str = "lane 0 admitted 0 refused -\nlane 1 admitted 0 refused -\n\
lane 2 admitted 0 refused -\nlane 3 admitted 0 refused -\n";
/// A decision for a flow of which nothing came in, and the report of that.
const GAP_ALONE: &str = "flow 1 0 1 1\ngap 0\n";

const NOTHING_LOST: &str = "flow 0 1 kept 0 late 0 repeat 0 beyond 0 lost 0 frames 0 skipped 0\n\
lane 0 admitted 0 refused -\nlane 1 admitted 0 refused -\n\
lane 2 admitted 0 refused -\nlane 3 admitted 0 refused -\n";

#[test]
fn reports_the_same_in_every_schedule(rt: HostRuntime) {
    let cases = [
        (LOST_TRACE, LOST_REPORT),
        ("", NOTHING_CAME),
        (GAP_ALONE, NOTHING_LOST),
    ];
    for (trace, wanted) in cases {
        for _ in 0..100 {
            let taps = Taps {
                frames: NoTap,
                requests: NoTap,
            };
            let mut report = Vec::new(rt.alloc());
            let done = run_with_room_for_one(rt.alloc(), rt, trace, taps, &mut report);
            assert!(rt; done == Ok(()), "{trace}");
            assert!(rt; report.as_slice() == wanted.as_bytes(), "{trace}");
        }
    }
}

/// A frame and a request in one segment.
const FRAME_AND_REQUEST: &str =
    "flow 1 0 16 1\nsid 0 1 0\ngrant 0 1 1 15\nburst 0 1 ok 800000000007000000000001111100\n";

/// How often a tap looks for the other.
const LOOKS: u32 = 1_000_000;

/// Which of the two taps came, and how many didn't see the other.
#[derive(Drop)]
struct Meeting {
    came: AtomicU64,
    missed: AtomicU64,
}

/// Comes to the meeting when it is first shown an item, and looks for the other tap.
#[derive(Drop)]
struct Meets {
    meeting: Option<Arc<Meeting, Global>>,
}

impl Meets {
    fn at(meeting: &Arc<Meeting, Global>) -> Result<Meets, AllocError> {
        Ok(Meets {
            meeting: Some(Arc::try_clone(meeting)?),
        })
    }
}

impl<T> Tap<T> for Meets {
    fn took(&mut self, _flow: usize, _item: &T) {
        let Some(meeting) = self.meeting.take() else {
            return;
        };
        meeting.came.fetch_add(1, Ordering::SeqCst);
        for _ in 0..LOOKS {
            if meeting.came.load(Ordering::SeqCst) == 2 {
                return;
            }
            thread::yield_now();
        }
        meeting.missed.fetch_add(1, Ordering::SeqCst);
    }
}

#[test]
fn frames_and_requests_are_taken_at_once(rt: HostRuntime) -> Result<(), Fail> {
    let none = Meeting {
        came: AtomicU64::new(0),
        missed: AtomicU64::new(0),
    };
    let meeting = Arc::new(rt.alloc(), none)?;
    let taps = Taps {
        frames: Meets::at(&meeting)?,
        requests: Meets::at(&meeting)?,
    };
    let mut report = Vec::new(rt.alloc());
    let done = run_with_room_for_one(rt.alloc(), rt, FRAME_AND_REQUEST, taps, &mut report);
    assert!(rt; done == Ok(()));
    assert!(rt; meeting.came.load(Ordering::SeqCst) == 2);
    assert!(rt; meeting.missed.load(Ordering::SeqCst) == 0, "not met");
    Ok(())
}
