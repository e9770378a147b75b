//! A receiver under way to which what the lines of a trace say is handed in, and what happens.
ghost use Rattle.std.specs.Prelude.{◌≡◌, ◌<◌, [], ◌∷◌, ◌++◌, flat_map, true, List, Some};
ghost use Rattle.std.specs.Prelude.{IfOk, OnOk, OnErr};
ghost use Rattle.flow_selection.specs.Selection.{is_selected};
ghost use Rattle.lane.specs.declared.input.Input.{Input};
ghost use Rattle.loss_rule.specs.declared.rule.LossRule.{LossRule};
ghost use Rattle.receiver.specs.Entries.{Entry, came};
ghost use Rattle.receiver.specs.HandedOrder.{flow_decision};
ghost use Rattle.receiver.specs.Receiving.{IsReceiving};
ghost use Rattle.receiver.specs.declared.setup.Setup.{Setup};
ghost use Rattle.receiver.specs.declared.width.Width.{Width};
ghost use Rattle.text_lines.specs.Putting.{Puts};
ghost use Rattle.texts.specs.AnyHeader.{no_check};
ghost use Rattle.texts.specs.Follow.{lines_told};
ghost use Rattle.texts.specs.Happened.{flow_decided};
ghost use Rattle.texts.specs.Inside.Added.{HasAdded};
ghost use Rattle.texts.specs.Inside.StandIn.{MayStandFor};
ghost use Rattle.followed_traces.specs.Inside.Watched.{Watched, HasFollowed};
ghost use Rattle.followed_traces.specs.Inside.Watched.{EndsFollowing, IsNonePending};
ghost use Rattle.followed_traces.specs.Inside.Watched.{TellsStandingOf, TellsStandingIfAny};
ghost use Rattle.followed_traces.specs.Inside.Watched.{would_be_followed};
ghost use Rattle.texts.specs.declared.follow.happening.Happening.{Happening};

use bonded_flows::FlowDecision;
use bonded_flows::laws::what_came_to_a_flow_has_one_answer;
use docsis_wire::NoCheck;
use lane::Input;
use loss_rule::LossRule;
use receiver::{Closed, Decision, DecisionReply, Receiver, Reply, Setup, Width};
use std::alloc::{AllocError, Global};
use std::marker::Model;
use text_lines::PutText;
use texts::{FollowSettings, Happening, HappeningList, InputName, TakeEntries, flow_admitted};

/// A receiver to which something may be handed in at any time, and what happened that wasn't put
/// yet. Contracts see both.
#[derive(Drop)]
pub struct Following {
    /// In a box, since each line of a trace moves it.
    receiver: Box<Receiver<NoCheck>>,
    happened: HappeningList,
}

impl Model for Following {
    ghost use Rattle.std.specs.Prelude.{refl};
    ghost use Rattle.std.specs.Box.{box_value};
    ghost use Rattle.std.specs.Coded.{code_by, coded×};
    ghost use Rattle.docsis_wire.specs.contracts.header_check.NoCheck as no_check_type;
    ghost use Rattle.docsis_wire.specs.declared.header_check.NoCheck.{NoCheck};
    ghost use Rattle.receiver.specs.contracts.receiver.Receiver as receiver_type;
    ghost use Rattle.receiver.specs.declared.receiver.Receiver.{Receiver};
    ghost use Rattle.receiver.specs.Receiving.{IsReceiving};
    ghost use Rattle.texts.specs.contracts.follow.happening_list.HappeningList as happening_list_type;
    ghost use Rattle.texts.specs.declared.follow.happening_list.HappeningList.{HappeningList};
    ghost use Rattle.followed_traces.specs.Inside.Watched.{ReceiverUnderWay};
    ghost use Rattle.texts.specs.AnyHeader.{no_check};

    ghost Value = { ReceiverUnderWay };

    ghost coded = { code_by (Receiver NoCheck × HappeningList)
        (coded× (receiver_type.the_row no_check_type.the_row).coded happening_list_type.the_row.coded)
        (λ value. (value.receiver, value.pending))
        (λ pair. record { receiver = pair.0; pending = pair.1 }) (λ _. refl) };

    ghost view = { λ following. record {
      receiver = box_value following.receiver;
      pending = following.happened;
    } };

    ghost invariant = { λ following. IsReceiving no_check (box_value following.receiver) };
}

impl Following {
    /// Puts the lines that these settings ask for of all that happened and wasn't put yet, which
    /// was by the line with this number.
    pub fn put_happened<O: PutText>(
        &mut self,
        line: u64,
        settings: &FollowSettings,
        out: &mut O,
    ) -> Result<(), AllocError>
        ensures put { OnOk result (Puts O.after out.old
            (flat_map (lines_told settings.now line) self.old.pending.happened.items) out.new) }
        ensures was_whole { OnOk result (self.old.pending.whole ≡ true) }
        ensures none { OnOk result (IsNonePending self.new) }
        ensures receiver { OnOk result (self.new.receiver ≡ self.old.receiver) }
        ensures unchanged { OnErr result (out.new ≡ out.old) }
    {
        self.happened.put(line, settings, out)
    }

    /// Hands in an input on a channel, in the place of one that came: that one, or one that looks
    /// like it and would come to no selected flow.
    pub fn take_in_place(
        self,
        alloc: Global,
        channel: u8,
        input: Input,
    ) -> Result<Following, AllocError>
        ensures { (state : Watched) (rule : LossRule) (width : Width) (setup : Setup)
            (entries : List Entry) (came_in : Input) → channel < width.channels
            → MayStandFor would_be_followed (is_selected state.settings.selected)
            (Some self) channel came_in input
            → HasFollowed state rule width setup entries self
            → IfOk result (HasFollowed state rule width setup
            (entries ++ came channel came_in ∷ [])) }
    {
        what_came_to_a_flow_has_one_answer();
        let Following {
            mut receiver,
            mut happened,
        } = self;
        let name = InputName::of(channel, &input);
        match receiver.take(alloc, usize::from(channel), input, &mut happened) {
            Ok(reply) => {
                let flow = flow_admitted(&reply);
                let took = Happening::Took { name, reply };
                add_reply(&receiver, took, flow, &mut happened);
                Ok(Following { receiver, happened })
            }
            Err(_) => Err(AllocError),
        }
    }

    /// Closes the receiver: what happened that wasn't put yet, and what was counted.
    pub fn finish(self, alloc: Global) -> Result<(HappeningList, Closed), AllocError>
        ensures { IfOk result (λ end. (state : Watched) (rule : LossRule) (width : Width)
            (setup : Setup) (entries : List Entry)
            → HasFollowed state rule width setup entries self
            → EndsFollowing state rule width setup entries end.0 end.1) }
    {
        let Following {
            receiver,
            mut happened,
        } = self;
        match Box::into_inner(receiver).close(alloc, &mut happened) {
            Ok(closed) => Ok((happened, closed)),
            Err(_) => Err(AllocError),
        }
    }
}

/// Adds how a flow of a receiver stands, if it has the flow.
fn add_standing(receiver: &Receiver<NoCheck>, flow: usize, happened: &mut HappeningList)
    requires { IsReceiving no_check receiver.now }
    ensures { (told : List Happening) × TellsStandingOf receiver.now flow told
        × HasAdded happened.old told happened.new }
{
    let Some(expected) = receiver.expected(flow) else {
        return;
    };
    let Some(held) = receiver.held(flow) else {
        return;
    };
    happened.add(Happening::Stands {
        flow,
        expected,
        held,
    });
}

/// The flow of which a decision was taken, if it was.
fn flow_decided(flow: usize, reply: &DecisionReply) -> Option<usize>
    ensures { result ≡ flow_decided flow reply.now }
{
    match reply {
        DecisionReply::PassedOver => None,
        DecisionReply::Taken { .. } => Some(flow),
    }
}

/// Adds what became of an input or of a decision, and how the flow stands to which it came, if it
/// came to one.
fn add_reply(
    receiver: &Receiver<NoCheck>,
    one: Happening,
    flow: Option<usize>,
    happened: &mut HappeningList,
)
    requires { IsReceiving no_check receiver.now }
    ensures { (told : List Happening) × TellsStandingIfAny receiver.now flow told
        × HasAdded happened.old (one ∷ told) happened.new }
{
    happened.add(one);
    if let Some(flow) = flow {
        add_standing(receiver, flow, happened);
    }
}

/// What a decision of a trace is to its flow.
fn decided_by(upto: Option<u16>) -> FlowDecision
    ensures { result ≡ flow_decision upto }
{
    match upto {
        None => FlowDecision::Gap,
        Some(number) => FlowDecision::GapTo(number),
    }
}

impl TakeEntries for Following {
    ghost use Rattle.std.specs.Prelude.{true};
    ghost use Rattle.followed_traces.specs.Inside.Watched.{Watched, HasFollowed};
    ghost use Rattle.followed_traces.specs.Inside.Watched.{starts_watched, would_be_followed};

    ghost State = { Watched };

    ghost starts = { starts_watched };

    ghost fits = { λ _. true };

    ghost has_taken = { HasFollowed };

    ghost would_come = { would_be_followed };

    fn begin(
        alloc: Global,
        width: Width,
        rule: LossRule,
        setup: &Setup,
    ) -> Result<Following, AllocError> {
        let Ok(receiver) = Receiver::new(alloc, width, setup, rule, NoCheck) else {
            return Err(AllocError);
        };
        Ok(Following {
            receiver: Box::new(alloc, receiver)?,
            happened: HappeningList::new(alloc),
        })
    }

    fn look(&self, _width: Width, channel: u8, input: &Input) -> Option<usize> {
        self.receiver.look(usize::from(channel), input)
    }

    fn take(
        self,
        alloc: Global,
        _width: Width,
        channel: u8,
        input: Input,
    ) -> Result<Following, AllocError> {
        self.take_in_place(alloc, channel, input)
    }

    fn decide(
        self,
        alloc: Global,
        _width: Width,
        decision: Decision,
    ) -> Result<Following, AllocError> {
        what_came_to_a_flow_has_one_answer();
        let Following {
            mut receiver,
            mut happened,
        } = self;
        let Decision { flow, upto } = decision;
        match receiver.decide(alloc, flow, decided_by(upto), &mut happened) {
            Ok(reply) => {
                let taken_of = flow_decided(flow, &reply);
                let decided = Happening::Decided { flow, reply };
                add_reply(&receiver, decided, taken_of, &mut happened);
                Ok(Following { receiver, happened })
            }
            Err(_) => Err(AllocError),
        }
    }
}
