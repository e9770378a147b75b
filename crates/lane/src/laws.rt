//! Laws about the definitions: each input of a lane has one answer, what is outstanding and what is
//! admitted after one more input, and rows have at most one first fault.
//!
//! Each function states a law in its contract; its body is empty. A clause whose name ends in
//! `within` says the same of rows of any number of channels.
ghost use Rattle.std.specs.Prelude.{◌≡◌, ◌≢◌, ◌↔◌, ℕ, ◌+◌, IsTrue, Ok, None};
ghost use Rattle.std.specs.Prelude.{List, [], ◌∷◌, ◌++◌, length, All};
ghost use Rattle.flow_records.specs.Counted.{counted};
ghost use Rattle.lane.specs.declared.input.Input.{Input};
ghost use Rattle.lane.specs.declared.lane.Lane.{Lane};
ghost use Rattle.lane.specs.declared.grant.OutstandingGrant.{OutstandingGrant};
ghost use Rattle.lane.specs.declared.sids.LaneFault.{LaneFault};
ghost use Rattle.lane.specs.declared.sids.SidRow.{SidRow};
ghost use Rattle.lane.specs.Rows.{CanBeOpened, CanBeOpenedWithin, IsLaneFault, IsLaneFaultWithin};
ghost use Rattle.lane.specs.Inputs.{LaneSetup, Answer, AnsweredInput, IsGrant, IsAnswer};
ghost use Rattle.lane.specs.Inputs.{AreAnswered, inputs_of, number_of, is_accepted};
ghost use Rattle.lane.specs.Inputs.{spends_its_grant, IsOutstanding, IsKnown};
ghost use Rattle.lane.specs.Inputs.{AreOutstanding, outstanding_count, HasBytes};
ghost use Rattle.lane.specs.Report.{admitted_of, requests_of, refusal_numbers, admitted_count};
ghost use Rattle.lane.specs.Stands.{StandsFor, TakesInput};

/// The same inputs have at most one list of answers.
pub fn lane_has_at_most_one_answer_to_each_input()
    ensures one { (setup : LaneSetup) (taken others : List AnsweredInput)
        → CanBeOpened setup.rows (length setup.records)
        → AreAnswered setup taken → AreAnswered setup others
        → inputs_of taken ≡ inputs_of others → taken ≡ others }
    ensures one_within { (channels : ℕ) (setup : LaneSetup) (taken others : List AnsweredInput)
        → CanBeOpenedWithin channels setup.rows (length setup.records)
        → AreAnswered setup taken → AreAnswered setup others
        → inputs_of taken ≡ inputs_of others → taken ≡ others }
{}

/// Each input has an answer, and each list of inputs has answers, if the bytes of the bursts are
/// below 256.
pub fn each_input_has_an_answer()
    ensures next { (setup : LaneSetup) (taken : List AnsweredInput) (input : Input)
        → CanBeOpened setup.rows (length setup.records) → AreAnswered setup taken
        → HasBytes input → (answer : Answer) × IsAnswer setup taken input answer }
    ensures all { (setup : LaneSetup) (inputs : List Input)
        → CanBeOpened setup.rows (length setup.records) → All HasBytes inputs
        → (taken : List AnsweredInput) × AreAnswered setup taken × (inputs_of taken ≡ inputs) }
    ensures next_within { (channels : ℕ) (setup : LaneSetup) (taken : List AnsweredInput)
        (input : Input) → CanBeOpenedWithin channels setup.rows (length setup.records)
        → AreAnswered setup taken
        → HasBytes input → (answer : Answer) × IsAnswer setup taken input answer }
    ensures all_within { (channels : ℕ) (setup : LaneSetup) (inputs : List Input)
        → CanBeOpenedWithin channels setup.rows (length setup.records) → All HasBytes inputs
        → (taken : List AnsweredInput) × AreAnswered setup taken × (inputs_of taken ≡ inputs) }
{}

/// With one more input at the end a list of inputs is answered rightly exactly if it was so
/// without it and the input has the right answer after the others.
pub fn next_input_is_answered()
    ensures { (setup : LaneSetup) (taken : List AnsweredInput) (one : AnsweredInput)
        → AreAnswered setup (taken ++ one ∷ [])
        ↔ (AreAnswered setup taken × IsAnswer setup taken one.input one.answer) }
{}

/// Of each number one grant at most is outstanding, with one flow and so many bytes.
pub fn number_has_one_outstanding_grant()
    ensures one { (setup : LaneSetup) (taken : List AnsweredInput) (number : ℕ)
        (grant other : OutstandingGrant)
        → CanBeOpened setup.rows (length setup.records) → AreAnswered setup taken
        → IsGrant setup taken number grant → IsGrant setup taken number other
        → grant ≡ other }
    ensures one_within { (channels : ℕ) (setup : LaneSetup) (taken : List AnsweredInput)
        (number : ℕ) (grant other : OutstandingGrant)
        → CanBeOpenedWithin channels setup.rows (length setup.records)
        → AreAnswered setup taken
        → IsGrant setup taken number grant → IsGrant setup taken number other
        → grant ≡ other }
{}

/// Lanes that stand for the same inputs answer the next one alike, so that an input which a failed
/// allocation left out can be taken again.
pub fn lanes_of_the_same_inputs_answer_alike()
    ensures alike { (setup : LaneSetup) (taken : List AnsweredInput) (input : Input)
        (lane other after other_after : Lane) (answer other_answer : Answer)
        → CanBeOpened setup.rows (length setup.records)
        → StandsFor setup lane taken → StandsFor setup other taken
        → TakesInput lane input answer after → TakesInput other input other_answer other_after
        → answer ≡ other_answer }
    ensures alike_within { (channels : ℕ) (setup : LaneSetup) (taken : List AnsweredInput)
        (input : Input) (lane other after other_after : Lane) (answer other_answer : Answer)
        → CanBeOpenedWithin channels setup.rows (length setup.records)
        → StandsFor setup lane taken → StandsFor setup other taken
        → TakesInput lane input answer after → TakesInput other input other_answer other_after
        → answer ≡ other_answer }
{}

/// What is outstanding after one more input: a grant that was accepted is, one that was spent
/// isn't, and otherwise what was so before.
pub fn next_input_changes_what_is_outstanding()
    ensures accepted { (taken : List AnsweredInput) (one : AnsweredInput) (number sid bytes : ℕ)
        → one.input ≡ Input.Grant number sid bytes → one.answer ≡ Ok None
        → IsOutstanding (taken ++ one ∷ []) number sid bytes }
    ensures spent { (taken : List AnsweredInput) (one : AnsweredInput)
        → IsTrue (spends_its_grant one) → ¬ (IsKnown (taken ++ one ∷ []) (number_of one.input)) }
    ensures other_numbers { (taken : List AnsweredInput) (one : AnsweredInput)
        (number sid bytes : ℕ) → number_of one.input ≢ number
        → IsOutstanding (taken ++ one ∷ []) number sid bytes
        ↔ IsOutstanding taken number sid bytes }
    ensures other_answers { (taken : List AnsweredInput) (one : AnsweredInput)
        (number sid bytes : ℕ)
        → ¬ (IsTrue (is_accepted one)) → ¬ (IsTrue (spends_its_grant one))
        → IsOutstanding (taken ++ one ∷ []) number sid bytes
        ↔ IsOutstanding taken number sid bytes }
{}

/// As many numbers are outstanding as `outstanding_count` says: as many grants as were accepted,
/// less those that were spent.
pub fn outstanding_numbers_are_counted()
    ensures { (setup : LaneSetup) (taken : List AnsweredInput) → AreAnswered setup taken
        → (numbers : List ℕ) × AreOutstanding taken numbers
        × (length numbers ≡ outstanding_count taken) }
{}

/// What is admitted of lists of inputs, asked for and reported, one list after the other.
pub fn reports_are_appended()
    ensures admitted { (taken others : List AnsweredInput)
        → admitted_of (taken ++ others) ≡ admitted_of taken ++ admitted_of others }
    ensures requests { (taken others : List AnsweredInput)
        → requests_of (taken ++ others) ≡ requests_of taken ++ requests_of others }
    ensures refused { (taken others : List AnsweredInput)
        → refusal_numbers (taken ++ others) ≡ refusal_numbers taken ++ refusal_numbers others }
    ensures count { (taken others : List AnsweredInput)
        → admitted_count (taken ++ others)
        ≡ counted (admitted_count taken + admitted_count others) }
{}

/// Rows have one first fault at most, and none where a lane can be opened with them.
pub fn rows_have_one_first_fault()
    ensures one { (rows : List SidRow) (flow_count : ℕ) (fault other : LaneFault)
        → IsLaneFault rows flow_count fault → IsLaneFault rows flow_count other
        → fault ≡ other }
    ensures none { (rows : List SidRow) (flow_count : ℕ) (fault : LaneFault)
        → IsLaneFault rows flow_count fault → ¬ (CanBeOpened rows flow_count) }
    ensures one_within { (channels : ℕ) (rows : List SidRow) (flow_count : ℕ)
        (fault other : LaneFault)
        → IsLaneFaultWithin channels rows flow_count fault
        → IsLaneFaultWithin channels rows flow_count other
        → fault ≡ other }
    ensures none_within { (channels : ℕ) (rows : List SidRow) (flow_count : ℕ)
        (fault : LaneFault)
        → IsLaneFaultWithin channels rows flow_count fault
        → ¬ (CanBeOpenedWithin channels rows flow_count) }
{}
