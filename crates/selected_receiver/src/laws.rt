//! Laws about what stands in for the whole.
//!
//! Each function states a law in its contract; its body is empty.
ghost use Rattle.std.specs.Prelude.{◌≡◌, ℕ, Bool, true, List};
ghost use Rattle.std.specs.List.{AllZip};
ghost use Rattle.flow_records.specs.declared.record.FlowRecord.{FlowRecord};
ghost use Rattle.lane.specs.Inputs.{AnsweredInput};
ghost use Rattle.lane.specs.Report.{admitted_by};
ghost use Rattle.bonded_flows.specs.Table.{TableSetup, inputs_at};
ghost use Rattle.receiver.specs.declared.reply.Reply.{Reply};
ghost use Rattle.receiver.specs.HandedIn.{HandedIn, answered_on, flow_inputs};
ghost use Rattle.receiver.specs.Receiving.{Says, IsToldRightly, IsNumberExpected};
ghost use Rattle.answers.specs.Beside.{AnswersInPlaceOf};
ghost use Rattle.selected_receiver.specs.StandIns.{AreHeadedAlike, StandsInFor};

/// **The whole comes in in the place of its stand-ins**: on each channel inputs answered in the
/// place of theirs, and to each chosen flow just what came to it of them.
pub fn whole_comes_in_the_place_of_stand_ins()
    ensures answered { (chosen : ℕ → Bool) (others handed : List HandedIn)
        → AllZip (StandsInFor chosen) others handed → (on : ℕ)
        → AllZip (AnswersInPlaceOf chosen) (answered_on on others) (answered_on on handed) }
    ensures inputs { (chosen : ℕ → Bool) (k : ℕ) → chosen k ≡ true
        → (n : ℕ) (others handed : List HandedIn) → AllZip (StandsInFor chosen) others handed
        → inputs_at k (flow_inputs n handed) ≡ inputs_at k (flow_inputs n others) }
{}

/// **A flow's expected numbers and verdicts depend on the headers of its segments alone**, not on
/// what they carry: what each flow expects after stand-ins it expects after the whole, and what is
/// told of an input after them is told of the one in its place.
pub fn numbers_and_verdicts_depend_on_headers_alone()
    ensures expected { (chosen : ℕ → Bool) (others handed : List HandedIn)
        → AllZip (StandsInFor chosen) others handed
        → (made : TableSetup) (k : ℕ) (flow_record : FlowRecord) (number : ℕ)
        → IsNumberExpected made k flow_record others number
        → IsNumberExpected made k flow_record handed number }
    ensures told { (chosen : ℕ → Bool) (others handed : List HandedIn)
        → AllZip (StandsInFor chosen) others handed
        → (made : TableSetup) (channel : ℕ) (one other : AnsweredInput)
        → AnswersInPlaceOf chosen one other
        → AreHeadedAlike (admitted_by one.answer) (admitted_by other.answer)
        → (reply : Reply) → Says reply one.answer
        → IsToldRightly made others channel one.answer reply
        → Says reply other.answer × IsToldRightly made handed channel other.answer reply }
{}
