//! The consumer that is given all, and hands on what is of the selected flows and of none.
ghost use Rattle.std.specs.Prelude.{◌≡◌};

use consumer::Consumer;
use docsis_wire::Bytes;
use flow_selection::Selection;
use lane::Request;

/// Hands on requests, and frames of the selected flows, to a consumer that it borrows.
#[derive(Drop)]
pub(crate) struct OfSelected<'a, O> {
    selected: &'a Selection,
    out: &'a mut O,
}

impl<'a, O: Consumer> OfSelected<'a, O> {
    /// Hands on to this consumer.
    pub(crate) fn new(selected: &'a Selection, out: &'a mut O) -> OfSelected<'a, O>
        ensures same_reference { result.out.ghost_name ≡ out.entry.ghost_name }
        ensures same { result.out.now ≡ out.old }
        ensures selected { result.selected.now ≡ selected.now }
    {
        OfSelected { selected, out }
    }
}

impl<O: Consumer> Consumer for OfSelected<'_, O> {
    ghost use Rattle.selected_receiver.specs.Handing.{HandsOn};

    ghost after = { HandsOn O.after };

    fn frame(&mut self, flow: usize, frame: Bytes) {
        if self.selected.has(flow) {
            self.out.frame(flow, frame);
        }
    }

    fn request(&mut self, request: Request) {
        self.out.request(request);
    }
}
