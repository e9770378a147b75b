//! The receiver that is handed in stand-ins.
ghost use Rattle.std.specs.Prelude.{All, ◌≡◌, ◌<◌, ◌≤◌, ◌↔◌, ◌⊎◌, ◌∷◌, [], ℕ, Bool, List, true};
ghost use Rattle.std.specs.Prelude.{Some, None, Err, IfOk, IfErr, IfSome, OnErr, length, slice_get};
ghost use Rattle.flow_records.specs.declared.record.FlowRecord.{FlowRecord};
ghost use Rattle.reorder.specs.Limits.{modulus};
ghost use Rattle.flow_selection.specs.Selection.{is_selected};
ghost use Rattle.lane.specs.Inputs.{HasBytes};
ghost use Rattle.consumer.specs.declared.given.Given.{Given};
ghost use Rattle.bonded_flows.specs.declared.decision.FlowDecision.{FlowDecision};
ghost use Rattle.bonded_flows.specs.Table.{TableSetup};
ghost use Rattle.receiver.specs.Elsewhere.{LooksLike};
ghost use Rattle.receiver.specs.HandedIn.{HandedIn, decided};
ghost use Rattle.receiver.specs.Receiving.{StandsFor, IsReceiving, IsSettledAt, HasGivenSince};
ghost use Rattle.receiver.specs.Received.{IsBeingClosed};
ghost use Rattle.selected_receiver.specs.StandIns.{MayStandIn};
ghost use Rattle.selected_receiver.specs.declared.flow_fault.FlowFault.{FlowFault};
ghost use Rattle.receiver.specs.declared.reply.TakeError.{TakeError};
ghost use Rattle.lane.specs.declared.input.Input.{Input};
ghost use Rattle.selected_receiver.specs.Whole.{StandsForWhole, IsReceivingWhole, IsAtHand};
ghost use Rattle.selected_receiver.specs.Taking.{ExpectsOfWhole, TakesWhole, TakesSomeOfWhole};
ghost use Rattle.selected_receiver.specs.Taking.{RepliesOfWhole};
ghost use Rattle.selected_receiver.specs.Taking.{RestartsOfWhole, ClosesOfWhole};

use crate::flow_fault::FlowFault;
use crate::of_selected::OfSelected;
use consumer::Consumer;
use docsis_wire::{HEADER_BYTES, HeaderCheck};
use flow_core::FlowCounts;
use flow_selection::Selection;
use lane::Input;
use receiver::{Closed, Closing, FlowDecision, Receiver, Reply, RestartError, TakeError};
use std::alloc::Global;

/// A receiver that joins the selected flows alone. Where all are selected it is one like any other.
#[derive(Drop)]
pub struct SelectedReceiver<C> {
    receiver: Receiver<C>,
    selected: Selection,
}

/// An input with zeros in the place of what a burst carries behind its header.
fn without_payload(input: Input) -> Input
    ensures { LooksLike input result }
{
    match input {
        Input::Burst {
            grant,
            hcs_ok,
            bytes,
        } => Input::Burst {
            grant,
            hcs_ok,
            bytes: bytes.with_zeros_behind(HEADER_BYTES),
        },
        Input::Grant { .. } => input,
    }
}

/// These numbers are bytes.
fn are_bytes(bytes: &[u8])
    ensures { All (λ byte. byte < 256) bytes.now }
{}

/// What a burst carries is of bytes, which costs nothing to know.
fn has_bytes(input: &Input)
    ensures { HasBytes input.now }
{
    if let Input::Burst { bytes, .. } = input {
        are_bytes(bytes.as_slice());
    }
}

/// What is handed in in the place of an input: itself, or what stands in for it.
fn stand_in<C: HeaderCheck + Drop>(
    receiver: &Receiver<C>,
    selected: &Selection,
    channel: usize,
    input: Input,
) -> Input
    ensures { MayStandIn C.accepts (is_selected selected.now) receiver.now channel input result }
{
    if matches!(selected, Selection::All) {
        return input;
    }
    match receiver.look(channel, &input) {
        Some(flow) if !selected.has(flow) => without_payload(input),
        _ => input,
    }
}

/// Why an input wasn't taken, or not to the end.
fn fault_of(error: &TakeError) -> FlowFault
    ensures { result ≡ FlowFault.NotThere
        ↔ ((back : Input) × (error.now ≡ TakeError.NoChannel back)) }
{
    match error {
        TakeError::NoChannel(_) => FlowFault::NotThere,
        TakeError::NotTaken(_, _) | TakeError::Unfinished { .. } => FlowFault::OutOfMemory,
    }
}

impl<C: HeaderCheck + Drop> SelectedReceiver<C> {
    /// Joins these flows alone of what is handed in. Nothing is promised of a receiver to which
    /// something was handed in before.
    pub fn new(receiver: Receiver<C>, selected: Selection) -> SelectedReceiver<C>
        ensures stands { (check : List ℕ → Bool) (made : TableSetup)
            → StandsFor C.accepts receiver check made [] []
            → StandsForWhole C.accepts result check made [] [] }
        ensures at_hand { (check : List ℕ → Bool) (made : TableSetup)
            → StandsFor C.accepts receiver check made [] []
            → ((j : ℕ) → IsSettledAt receiver j) → IsAtHand C.accepts result }
        ensures receiver { result.receiver ≡ receiver }
        ensures selected { result.selected ≡ selected }
    {
        SelectedReceiver { receiver, selected }
    }

    /// The flows that are joined.
    pub fn selected(&self) -> &Selection
        ensures { result.now ≡ self.now.selected }
    {
        &self.selected
    }

    /// The number that a flow expects, 0 to 8191.
    pub fn expected(&self, flow: usize) -> Result<u16, FlowFault>
        requires { IsAtHand C.accepts self.now }
        ensures expects { IfOk result (ExpectsOfWhole C.accepts self.now flow) }
        ensures in_range { IfOk result (λ number. number < modulus) }
        ensures no_flow { result ≡ Err FlowFault.NotThere
            ↔ (length self.now.receiver.flows.slots.items ≤ flow) }
        ensures fault { IfErr result (λ fault. fault ≡ FlowFault.NotThere) }
    {
        match self.receiver.expected(flow) {
            Some(number) => Ok(number),
            None => Err(FlowFault::NotThere),
        }
    }

    /// The flow skips to this number, 0 to 8191.
    pub fn skip<O: Consumer>(
        &mut self,
        alloc: Global,
        flow: usize,
        number: u16,
        out: &mut O,
    ) -> Result<(), FlowFault>
        requires at_hand { IsAtHand C.accepts self.old }
        ensures takes { IfOk result (λ _. TakesWhole C.accepts O.after self.old out.old
            (decided flow (FlowDecision.SkipTo number) ∷ []) self.new out.new) }
        ensures at_hand { IfOk result (λ _. IsAtHand C.accepts self.new) }
        ensures fails { OnErr result
            (TakesSomeOfWhole C.accepts O.after self.old out.old self.new out.new) }
        ensures fault { IfErr result (λ fault. fault ≡ FlowFault.OutOfMemory) }
        ensures receiving { IsReceivingWhole C.accepts self.new }
        ensures selected { self.new.selected ≡ self.old.selected }
    {
        let mut told = OfSelected::new(&self.selected, out);
        let decision = FlowDecision::SkipTo(number);
        match self.receiver.decide(alloc, flow, decision, &mut told) {
            Ok(_) => Ok(()),
            Err(_) => Err(FlowFault::OutOfMemory),
        }
    }

    /// The flow is closed and begins anew at this number, 0 to 8191. What was counted of it since
    /// it was begun is answered; of a flow that isn't selected, of what stood in for it.
    pub fn restart<O: Consumer>(
        &mut self,
        alloc: Global,
        flow: usize,
        first: u16,
        out: &mut O,
    ) -> Result<FlowCounts, FlowFault>
        requires at_hand { IsAtHand C.accepts self.old }
        ensures restarts { IfOk result (λ counts. RestartsOfWhole C.accepts O.after self.old out.old
            flow first counts self.new out.new) }
        ensures at_hand { IfOk result (λ _. IsAtHand C.accepts self.new) }
        ensures fails { OnErr result
            (TakesSomeOfWhole C.accepts O.after self.old out.old self.new out.new) }
        ensures not_there { result ≡ Err FlowFault.NotThere
            ↔ ((length self.old.receiver.flows.slots.items ≤ flow) ⊎ (modulus ≤ first)) }
        ensures receiving { IsReceivingWhole C.accepts self.new }
        ensures selected { self.new.selected ≡ self.old.selected }
    {
        let mut told = OfSelected::new(&self.selected, out);
        match self.receiver.restart(alloc, flow, first, &mut told) {
            Ok(counts) => Ok(counts),
            Err(RestartError::OutOfMemory) => Err(FlowFault::OutOfMemory),
            Err(_) => Err(FlowFault::NotThere),
        }
    }

    /// An input of a channel is handed in; of a burst that would come to a flow that isn't selected
    /// the header, and zeros behind it.
    pub fn take<O: Consumer>(
        &mut self,
        alloc: Global,
        channel: usize,
        input: Input,
        out: &mut O,
    ) -> Result<Reply, FlowFault>
        requires at_hand { IsAtHand C.accepts self.old }
        ensures replies { IfOk result (λ reply. RepliesOfWhole C.accepts O.after self.old out.old
            channel input reply self.new out.new) }
        ensures at_hand { IfOk result (λ _. IsAtHand C.accepts self.new) }
        ensures fails { OnErr result
            (TakesSomeOfWhole C.accepts O.after self.old out.old self.new out.new) }
        ensures no_channel { result ≡ Err FlowFault.NotThere
            ↔ (length self.old.receiver.lanes.items ≤ channel) }
        ensures receiving { IsReceivingWhole C.accepts self.new }
        ensures selected { self.new.selected ≡ self.old.selected }
    {
        has_bytes(&input);
        let input = stand_in(&self.receiver, &self.selected, channel, input);
        let mut told = OfSelected::new(&self.selected, out);
        match self.receiver.take(alloc, channel, input, &mut told) {
            Ok(reply) => Ok(reply),
            Err(error) => Err(fault_of(&error)),
        }
    }

    /// What was counted of a flow since it was begun or began anew, or none if there is no such
    /// flow. Of one that isn't selected it was counted of what stood in for it.
    pub fn counts(&self, flow: usize) -> Option<FlowCounts>
        ensures none { result ≡ None ↔ (length self.now.receiver.flows.slots.items ≤ flow) }
        ensures counts { IfSome result (λ counts. (check : List ℕ → Bool) (made : TableSetup)
            (handed : List HandedIn) (given : List Given) (flow_record : FlowRecord)
            → StandsForWhole C.accepts self.now check made handed given
            → slice_get made.records flow ≡ Some flow_record
            → IsSettledAt self.now.receiver flow → is_selected self.now.selected flow ≡ true
            → HasGivenSince check made flow flow_record handed given counts) }
    {
        self.receiver.counts(flow)
    }

    /// Closes all flows, in the order of their records, and gives what each has left to give. The
    /// selection is given back. Where an allocation failed the close can't be gone on with for the
    /// whole: what [`Closing::go_on`] gives is of what stood in for other flows, too.
    pub fn close<O: Consumer>(
        self,
        alloc: Global,
        out: &mut O,
    ) -> (Selection, Result<Closed, Closing<C>>)
        requires receiving { IsReceivingWhole C.accepts self }
        ensures closes { IfOk result.1 (λ closed.
            ClosesOfWhole C.accepts O.after self out.old closed out.new) }
        ensures closing { IfErr result.1 (λ closing. IsBeingClosed C.accepts closing) }
        ensures selected { result.0 ≡ self.selected }
    {
        let SelectedReceiver { receiver, selected } = self;
        let mut told = OfSelected::new(&selected, out);
        match receiver.close(alloc, &mut told) {
            Ok(closed) => (selected, Ok(closed)),
            Err(closing) => (selected, Err(closing)),
        }
    }
}
