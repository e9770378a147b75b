//! What follows from how frames are compared, each stated in the contract of a function whose body
//! is empty.
ghost use Rattle.std.specs.Prelude.{◌≡◌, ◌<◌, ℕ, List};
ghost use Rattle.frame_comparison.specs.declared.side.Side.TheVariants.{Analyser, Here};
ghost use Rattle.frame_comparison.specs.Seen.{counts_of};
ghost use Rattle.frame_comparison.specs.Aligned.{Arrival, AreAligned, FewWait, given_of, flow_then};
ghost use Rattle.frame_comparison.specs.Aligned.{flow_at_end, bytes_of};
ghost use Rattle.frame_comparison.specs.InStep.{StayInStep, AreShort, NoneAlone};

/// **The frames in both are the same frames of both sides, in one order.** What a side gave of a
/// flow is, in its order, what is settled and what waits behind it; and of what is settled the
/// frames in both have the same bytes on both sides. So it is once all has ended, too. At each
/// moment few frames wait, so that memory is bounded.
pub fn compared_frames_are_aligned()
    ensures while_they_come { (flows flow : ℕ) (arrivals : List Arrival) → flow < flows
        → AreAligned (given_of Analyser flow arrivals) (given_of Here flow arrivals)
        (flow_then flows flow arrivals) }
    ensures at_the_end { (flows flow : ℕ) (arrivals : List Arrival) → flow < flows
        → AreAligned (given_of Analyser flow arrivals) (given_of Here flow arrivals)
        (flow_at_end flows flow arrivals) }
    ensures few_wait { (flows flow : ℕ) (arrivals : List Arrival) → flow < flows
        → FewWait (flow_then flows flow arrivals) }
{}

/// **Where, in the end, no frame of a flow is only one side's, both sides gave the same frames in
/// the same order**, byte by byte. So frames that differ in their last byte alone are told.
pub fn nothing_lonely_means_equal()
    ensures { (flows flow : ℕ) (arrivals : List Arrival) → flow < flows
        → (counts_of (flow_at_end flows flow arrivals)).only_analyser ≡ 0
        → (counts_of (flow_at_end flows flow arrivals)).only_here ≡ 0
        → bytes_of (given_of Analyser flow arrivals) ≡ bytes_of (given_of Here flow arrivals) }
{}

/// Where at each moment one side gave what the other gave and at most 1,024 frames more, none
/// longer than a MAC frame can be, no frame is given up; and in the end neither, where both sides
/// then gave the same.
pub fn equal_sequences_have_nothing_lonely()
    ensures while_they_come { (flows flow : ℕ) (arrivals : List Arrival) → flow < flows
        → AreShort flow arrivals → StayInStep flow arrivals
        → NoneAlone (flow_then flows flow arrivals) }
    ensures at_the_end { (flows flow : ℕ) (arrivals : List Arrival) → flow < flows
        → AreShort flow arrivals → StayInStep flow arrivals
        → bytes_of (given_of Analyser flow arrivals) ≡ bytes_of (given_of Here flow arrivals)
        → NoneAlone (flow_at_end flows flow arrivals) }
{}
