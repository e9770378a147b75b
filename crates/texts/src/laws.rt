//! The definitions of `join`, of `cut`, of `replay` and of traces determine their answers: an input
//! has at most one text, or is at most one trace, has at most one first fault, and never both. So
//! do those of `run`, but for the text, which may be one of several. A trace passes the checks of a
//! receiver. Where decisions alone decide, the texts by the loss rule are those without one. What
//! happens as a trace is followed is one thing, and what is given then is what its report says.
//!
//! Each function states a law in its contract; its body is empty or only calls other laws.
ghost use Rattle.std.specs.Prelude.{◌≡◌, ◌≢◌, ◌≤◌, ◌++◌, ℕ, Bool, Some, List};
ghost use Rattle.std.specs.Prelude.{length, map, filter_map, flat_map, slice_get};
ghost use Rattle.ccf.specs.Filter.{FiltersTo};
ghost use Rattle.consumer.specs.Given.{frames_of};
ghost use Rattle.docsis_wire.specs.declared.pieces.FillByte.{FillByte};
ghost use Rattle.docsis_wire.specs.declared.pieces.Piece.{Piece};
ghost use Rattle.docsis_wire.specs.declared.segment.Segment.{Segment};
ghost use Rattle.flow_records.specs.Limits.{flows_max};
ghost use Rattle.flow_selection.specs.declared.selection.Selection.{Selection};
ghost use Rattle.flow_selection.specs.Lines.{FlowLine, text_of_lines, text_left};
ghost use Rattle.flow_records.specs.declared.record.FlowRecord.{FlowRecord};
ghost use Rattle.lane.specs.Limits.{channel_limit};
ghost use Rattle.loss_rule.specs.declared.rule.LossRule.{LossRule};
ghost use Rattle.loss_rule.specs.InOrder.{DecideSafely, IsAllCome};
ghost use Rattle.receiver.specs.Modem.{ComeFromAModem};
ghost use Rattle.receiver.specs.declared.width.Width.{Width};
ghost use Rattle.receiver.specs.Items.{incoming_of};
ghost use Rattle.receiver.specs.Faults.{CanReceive};
ghost use Rattle.receiver.specs.AdmittedOrder.{input_counts, IsAdmittedOrder};
ghost use Rattle.receiver.specs.Ruled.{IsOutcomeBy};
ghost use Rattle.receiver.specs.declared.outcome.Outcome.{Outcome};
ghost use Rattle.receiver.specs.Order.{IsLawfulOrder};
ghost use Rattle.text_lines.specs.Capacities.{default_capacity};
ghost use Rattle.text_lines.specs.declared.fault.ParseFault.{ParseFault};
ghost use Rattle.text_lines.specs.declared.fault.TextFault.{TextFault};
ghost use Rattle.texts.specs.declared.trace.Trace.{Trace};
ghost use Rattle.texts.specs.AnyHeader.{any_header};
ghost use Rattle.texts.specs.Follow.{of_all_flows, IsFollowed};
ghost use Rattle.texts.specs.declared.follow.settings.FollowSettings.{FollowSettings};
ghost use Rattle.texts.specs.FollowedReport.{given_in, followed_flow, came_of_trace};
ghost use Rattle.texts.specs.FollowedReport.{IsGivenAsReported};
ghost use Rattle.texts.specs.declared.follow.happening.Happening.{Happening};
ghost use Rattle.texts.specs.HappenAlike.{HappenAlike};
ghost use Rattle.texts.specs.Happened.{happening_of, HappenedBy};
ghost use Rattle.texts.specs.Report.{report_text};
ghost use Rattle.texts.specs.Selected.{IsReplayedOf};
ghost use Rattle.texts.specs.Selected.{report_of, report_lines};
ghost use Rattle.texts.specs.Join.{IsJoined, IsJoinFault};
ghost use Rattle.texts.specs.Cut.{IsCutInto, IsCutText, IsCutFault, segment_line, cut_text_length};
ghost use Rattle.texts.specs.Replay.{IsReplayed, IsReplayedBy, IsReplayFault, IsReportFault};
ghost use Rattle.texts.specs.Run.{IsRunText, IsRunTextBy};
ghost use Rattle.texts.specs.Trace.{IsTrace, IsTraceFault, AreSameTraces};

/// At most one text stands for an input of `join`.
pub fn join_has_one_text()
    ensures { (input text other : List ℕ)
        → IsJoined input text → IsJoined input other → text ≡ other }
{
    docsis_wire::laws::eight_bytes_spell_one_header();
    ccf::laws::joining_has_one_answer();
}

/// An input of `join` has at most one first fault: its line, and the one kind that this line has.
pub fn join_has_one_fault()
    ensures { (input : List ℕ) (fault other : TextFault)
        → IsJoinFault input fault → fault ≢ TextFault.OutOfMemory
        → IsJoinFault input other → other ≢ TextFault.OutOfMemory → fault ≡ other }
{
    docsis_wire::laws::eight_bytes_spell_one_header();
}

/// No text stands for an input of `join` that has a fault.
pub fn faulty_input_of_join_has_no_text()
    ensures { (input text : List ℕ) (fault : TextFault)
        → IsJoined input text → IsJoinFault input fault → fault ≡ TextFault.OutOfMemory }
{
    docsis_wire::laws::eight_bytes_spell_one_header();
}

/// At most one text stands for an input of `cut`.
pub fn cut_has_one_text()
    ensures { (first : ℕ) (fill : FillByte) (input text other : List ℕ)
        → IsCutText first fill input text → IsCutText first fill input other → text ≡ other }
{
    docsis_wire::laws::pieces_make_one_cut();
}

/// The lines of the segments that frames are cut into are exactly as long as the frames and the
/// pieces say: the room that `cut_lines` reserves is just what its text takes.
pub fn cut_text_has_this_length()
    ensures { (first : ℕ) (fill : FillByte) (frames : List (List ℕ)) (pieces : List Piece)
        (segments : List Segment)
        → IsCutInto first fill frames pieces segments
        → length (flat_map segment_line segments) ≡ cut_text_length frames pieces }
{}

/// An input of `cut` has at most one first fault, be it of a line or of the frames and the pieces.
pub fn cut_has_one_fault()
    ensures { (input : List ℕ) (fault other : TextFault)
        → IsCutFault input fault → fault ≢ TextFault.OutOfMemory
        → IsCutFault input other → other ≢ TextFault.OutOfMemory → fault ≡ other }
{
    docsis_wire::laws::cut_has_one_fault();
}

/// No text stands for an input of `cut` that has a fault.
pub fn faulty_input_of_cut_has_no_text()
    ensures { (first : ℕ) (fill : FillByte) (input text : List ℕ) (fault : TextFault)
        → IsCutText first fill input text → IsCutFault input fault → fault ≡ TextFault.OutOfMemory }
{
    docsis_wire::laws::lawful_cut_has_no_fault();
    docsis_wire::laws::cut_has_one_fault();
}

/// An input is at most one trace.
pub fn input_is_one_trace()
    ensures { (ring mailbox : ℕ) (input : List ℕ) (trace other : Trace)
        → IsTrace ring mailbox input trace → IsTrace ring mailbox input other
        → AreSameTraces trace other }
{}

/// An input that should be a trace has at most one first fault: its line, and the least kind of
/// the faults of that line.
pub fn trace_has_one_fault()
    ensures { (ring : ℕ) (input : List ℕ) (fault other : ParseFault)
        → IsTraceFault ring input fault → fault ≢ ParseFault.OutOfMemory
        → IsTraceFault ring input other → other ≢ ParseFault.OutOfMemory → fault ≡ other }
{}

/// An input that has a fault is no trace.
pub fn faulty_input_is_no_trace()
    ensures { (ring mailbox : ℕ) (input : List ℕ) (trace : Trace) (fault : ParseFault)
        → IsTrace ring mailbox input trace → IsTraceFault ring input fault
        → fault ≡ ParseFault.OutOfMemory }
{}

/// The setup of a trace has no fault: a receiver can be set up with it.
pub fn trace_passes_the_checks()
    ensures { (ring mailbox : ℕ) (input : List ℕ) (trace : Trace)
        → 1 ≤ ring → IsTrace ring mailbox input trace → CanReceive trace.setup }
{}

/// The tags of a trace name each channel as often as it has inputs, and the decisions as often as
/// there are some.
pub fn tags_of_a_trace_are_lawful()
    ensures { (ring mailbox : ℕ) (input : List ℕ) (trace : Trace)
        → IsTrace ring mailbox input trace
        → IsLawfulOrder (input_counts (incoming_of trace.lists)) trace.tags.items }
{}

/// At most one text stands for an input of `replay`, also by a loss rule.
pub fn replay_has_one_text()
    ensures one { (input text other : List ℕ)
        → IsReplayed input text → IsReplayed input other → text ≡ other }
    ensures by_rule { (rule : LossRule) (input text other : List ℕ)
        → IsReplayedBy rule input text → IsReplayedBy rule input other → text ≡ other }
{
    lane::laws::lane_has_at_most_one_answer_to_each_input();
    receiver::laws::lists_have_one_merge::<bool>();
    receiver::laws::replay_has_one_outcome();
}

/// The report of what the lists of a trace give by a loss rule, in the admitted order of its tags,
/// is the text of `replay`.
pub fn replay_of_a_trace_is_the_text()
    ensures { (rule : LossRule) (input : List ℕ) (trace : Trace) (order : List ℕ) (outcome : Outcome)
        → IsTrace default_capacity default_capacity input trace
        → IsAdmittedOrder trace.setup (incoming_of trace.lists) trace.tags.items order
        → IsOutcomeBy rule any_header trace.setup (incoming_of trace.lists) order outcome
        → IsReplayedBy rule input (report_text outcome) }
{}

/// **The report of some flows has just the lines of the whole one that stay**: that one is the text
/// of all the lines of which the report of some flows has those that stay. Of all flows it is the
/// whole one, and so is the text of `replay`.
pub fn report_of_all_flows_is_the_report()
    ensures whole { (outcome : Outcome)
        → report_text outcome ≡ text_of_lines (report_lines outcome) }
    ensures all { (outcome : Outcome) → report_of Selection.All outcome ≡ report_text outcome }
    ensures replay { (rule : LossRule) (input text : List ℕ)
        → IsReplayedOf Selection.All rule input text → IsReplayedBy rule input text }
{}

/// **What `follow` gives of a trace is what its report says**, where `replay` takes the trace too:
/// of each flow its frames and of each channel its requests, in order, and what is counted of both.
/// Of what it gave, just that is told before the receiver is closed which was given till then.
pub fn followed_trace_gives_its_report()
    ensures told { (rule : LossRule) (width : Width) (settings : FollowSettings)
        (input text : List ℕ)
        → (is : IsFollowed rule width settings input text)
        → filter_map given_in (map happening_of is.told) ≡ is.given }
    ensures reported { (rule : LossRule) (width : Width) (settings : FollowSettings)
        (input text report : List ℕ)
        → channel_limit ≤ width.channels → flows_max ≤ width.flows
        → (is : IsFollowed rule width settings input text)
        → (by : IsReplayedBy rule input report)
        → IsGivenAsReported by.outcome is.setup (is.given ++ is.rest) is.closed }
{
    lane::laws::lane_has_at_most_one_answer_to_each_input();
    receiver::laws::lists_have_one_merge::<bool>();
    receiver::laws::order_has_one_intake();
    receiver::laws::segments_come_on_channels_of_their_flow();
    bonded_flows::laws::what_came_to_a_flow_has_one_answer();
}

/// **What happens for the lines of a trace is one thing**: what is told of each input and of each
/// decision, in order, and before that the frames of each flow and the requests on each channel.
/// Since it holds of the first lines, however many, what happens by each line is one thing too.
pub fn lines_happen_in_one_way()
    ensures { (rule : LossRule) (width : Width) (lines : List (List ℕ))
        (happened others : List Happening)
        → HappenedBy rule width lines happened → HappenedBy rule width lines others
        → HappenAlike happened others }
{
    bonded_flows::laws::what_came_to_a_flow_has_one_answer();
}

/// **The text of a trace that is followed for some flows is the whole one, line by line, but for
/// the lines of the flows that aren't selected.** Of all flows there is a whole text of the same
/// trace, and both are of the same lines.
pub fn followed_flows_have_the_lines_of_the_whole()
    ensures { (rule : LossRule) (width : Width) (settings : FollowSettings) (input text : List ℕ)
        → IsFollowed rule width settings input text
        → (whole : List ℕ) × (lines : List FlowLine)
        × IsFollowed rule width (of_all_flows settings.events) input whole
        × (whole ≡ text_of_lines lines) × (text ≡ text_left settings.selected lines) }
{}

/// **What a flow gives of a trace that is followed is exactly the modem's frames all of whose
/// segments came in**, in the modem's order: by a loss rule, and where what comes to the flow is of
/// one lawful cut of the modem's frames, none twice, comes on each channel in the modem's order and
/// falls into the window, and the decisions of the trace lose nothing that still comes.
pub fn followed_flow_gives_the_frames_that_all_came()
    ensures { (rule : LossRule) (width : Width) (settings : FollowSettings) (input text : List ℕ)
        (k : ℕ) (flow_record : FlowRecord) (frames : List (List ℕ))
        → rule ≢ LossRule.Decided
        → (is : IsFollowed rule width settings input text)
        → slice_get is.setup.flows.items k ≡ Some flow_record
        → (modem : ComeFromAModem rule any_header (followed_flow rule width is.setup k flow_record)
        frames (came_of_trace rule width is.setup is.handed k flow_record))
        → DecideSafely rule (followed_flow rule width is.setup k flow_record)
        (came_of_trace rule width is.setup is.handed k flow_record) modem.index_at
        → FiltersTo (IsAllCome frames modem.chunks
        (came_of_trace rule width is.setup is.handed k flow_record) modem.index_at) frames
        (frames_of k (is.given ++ is.rest)) }
{
    bonded_flows::laws::bonded_flow_gives_the_frames_that_all_came();
}

/// An input of `replay` or `run` has at most one first fault.
pub fn report_has_one_fault()
    ensures { (ring : ℕ) (input : List ℕ) (fault other : TextFault)
        → IsReportFault ring input fault → fault ≢ TextFault.OutOfMemory
        → IsReportFault ring input other → other ≢ TextFault.OutOfMemory → fault ≡ other }
{
    trace_has_one_fault();
}

/// No text stands for an input of `replay` or `run` that has a fault.
pub fn faulty_input_has_no_report()
    ensures replay { (input text : List ℕ) (fault : TextFault)
        → IsReplayed input text → IsReplayFault input fault → fault ≡ TextFault.OutOfMemory }
    ensures run { (ring mailbox : ℕ) (input text : List ℕ) (fault : TextFault)
        → IsRunText ring mailbox input text → IsReportFault ring input fault
        → fault ≡ TextFault.OutOfMemory }
    ensures replay_by { (rule : LossRule) (input text : List ℕ) (fault : TextFault)
        → IsReplayedBy rule input text → IsReplayFault input fault
        → fault ≡ TextFault.OutOfMemory }
    ensures run_by { (rule : LossRule) (ring mailbox : ℕ) (input text : List ℕ) (fault : TextFault)
        → IsRunTextBy rule ring mailbox input text → IsReportFault ring input fault
        → fault ≡ TextFault.OutOfMemory }
{
    faulty_input_is_no_trace();
}

/// Where the decisions of a trace decide alone, the text of `replay` by the rule is the text
/// without one.
pub fn replay_by_decisions_alone_is_a_replay()
    ensures replay { (input text : List ℕ)
        → IsReplayedBy LossRule.Decided input text → IsReplayed input text }
    ensures by_rule { (input text : List ℕ)
        → IsReplayed input text → IsReplayedBy LossRule.Decided input text }
{
    receiver::laws::replay_by_decisions_alone_is_a_replay();
}

/// So are the texts of `run`.
pub fn run_by_decisions_alone_is_a_run()
    ensures run { (ring mailbox : ℕ) (input text : List ℕ)
        → IsRunTextBy LossRule.Decided ring mailbox input text
        → IsRunText ring mailbox input text }
    ensures by_rule { (ring mailbox : ℕ) (input text : List ℕ)
        → IsRunText ring mailbox input text
        → IsRunTextBy LossRule.Decided ring mailbox input text }
{
    receiver::laws::replay_by_decisions_alone_is_a_replay();
}
