//! One flow that is played to its end: its segments arrive, and then it is closed.
ghost use Rattle.std.specs.Prelude.{All, IfOk};
ghost use Rattle.docsis_wire.specs.Ready.{IsReady};
ghost use Rattle.uses.specs.OneFlow.{GivesWhatIsDelivered};

use docsis_wire::{Bytes, HeaderCheck, Segment};
use flow_core::{Core, Event, FlowRecord, SetupFault, laws};
use std::alloc::Global;

/// Plays one flow to its end: these segments, each of which is ready, arrive, and then the flow is
/// closed. Answers the frames, or the fault of the record, or `OutOfMemory`: an allocation failed.
pub fn play<C: HeaderCheck + Drop>(
    alloc: Global,
    flow_record: FlowRecord,
    check: C,
    segments: Vec<Segment>,
) -> Result<Vec<Bytes>, SetupFault>
    requires { All IsReady segments.items }
    ensures { IfOk result (λ frames.
        GivesWhatIsDelivered (C.accepts check) flow_record segments.items frames.items) }
{
    laws::events_have_one_outcome();
    laws::events_lead_on_in_turn();
    laws::flow_has_one_close();
    laws::gaps_after_keep_events_near();
    laws::drained_flow_has_its_outcome();
    laws::outcome_of_near_events_is_the_delivery_sequence();
    let mut core = Core::new(alloc, &[flow_record], check)?;
    let mut frames = Vec::new(alloc);
    for segment in segments {
        core.apply(Event::Arrive { flow: 0, segment });
        core.drain(alloc, 0, &mut frames)?;
    }
    core.close(alloc, 0, &mut frames)?;
    Ok(frames)
}
