//! Gives a consumer several things, one after another.
ghost use Rattle.std.specs.Prelude.{◌++◌, List, map};
ghost use Rattle.consumer.specs.declared.given.Given.{Given};
ghost use Rattle.consumer.specs.Given.{asked_in};

use crate::consumer::Consumer;
use docsis_wire::Bytes;
use lane::Request;

/// Gives a consumer these frames of a flow, in order.
pub fn give_frames<O: Consumer>(out: &mut O, flow: usize, frames: Vec<Bytes>)
    ensures { (start : O) (given : List Given) → O.after start given out.old
        → O.after start (given ++ map (Given.Frame flow) frames.items) out.new }
{
    for frame in frames {
        out.frame(flow, frame);
    }
}

/// Gives a consumer a request, if there is one.
pub fn give_request<O: Consumer>(out: &mut O, request: Option<Request>)
    ensures { (start : O) (given : List Given) → O.after start given out.old
        → O.after start (given ++ asked_in request) out.new }
{
    if let Some(request) = request {
        out.request(request);
    }
}
