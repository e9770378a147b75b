//! Laws about the definitions. Each definition has one answer: there is one reading of the same
//! bytes. And what a modem cut up by the rules is joined again: each segment completes exactly the
//! frames that end in it, but for those of which an earlier segment was lost.
//!
//! Each function states a law in its contract; its body is empty or only calls other laws.
ghost use Rattle.std.specs.Prelude.{◌≡◌, ◌↔◌, ◌+◌, ◌<◌, ◌≤◌, ℕ, Bool, true, Option, Some, None};
ghost use Rattle.std.specs.Prelude.{List, [], ◌∷◌, ◌++◌, length, slice_get, map, take};
ghost use Rattle.std.specs.List.{AllByRecursion};
ghost use Rattle.docsis_wire.specs.declared.segment.Segment.{Segment};
ghost use Rattle.docsis_wire.specs.Frame.{IsFrame};
ghost use Rattle.docsis_wire.specs.Ready.{IsReady};
ghost use Rattle.docsis_wire.specs.Stream.{place_of, EndsIn};
ghost use Rattle.docsis_wire.specs.Cut.{IsLawfulCut};
ghost use Rattle.docsis_wire.specs.Span.{IsInSpan, IsSettledOf, IsWhollyKept};
ghost use Rattle.ccf.specs.Completed.{IsCompletedBy};
ghost use Rattle.ccf.specs.Filter.{FiltersTo};
ghost use Rattle.ccf.specs.Unfinished.{IsLeftUnfinished};
ghost use Rattle.ccf.specs.Walk.{Walks};
ghost use Rattle.ccf.specs.Feed.{GoesOn, IsDoneWith, Feeds, IsOneFrame};
ghost use Rattle.ccf.specs.Join.{Joins};

/// The same bytes are walked in one way only.
pub fn walk_has_one_answer()
    ensures { (check : List ℕ → Bool) (bytes : List ℕ)
        (frames others : List (List ℕ)) (after rest : List ℕ)
        → Walks check bytes frames after → Walks check bytes others rest
        → (frames ≡ others) × (after ≡ rest) }
{}

/// Where no MAC header begins in a segment, what was unfinished goes on in one way only.
pub fn going_on_has_one_answer()
    ensures { (check : List ℕ → Bool) (bytes : List ℕ)
        (frames others : List (List ℕ)) (after rest : List ℕ)
        → GoesOn check bytes frames after → GoesOn check bytes others rest
        → (frames ≡ others) × (after ≡ rest) }
{}

/// Where a MAC header begins in a segment, what was unfinished ends in one way only.
pub fn end_has_one_answer()
    ensures { (check : List ℕ → Bool) (bytes : List ℕ) (frames others : List (List ℕ))
        → IsDoneWith check bytes frames → IsDoneWith check bytes others → frames ≡ others }
{}

/// A segment completes the same frames each time, and leaves the same bytes unfinished.
pub fn feed_has_one_answer()
    ensures { (check : List ℕ → Bool) (before : List ℕ) (segment : Segment)
        (frames others : List (List ℕ)) (after rest : List ℕ)
        → Feeds check before segment frames after → Feeds check before segment others rest
        → (frames ≡ others) × (after ≡ rest) }
{}

/// A segment that is one whole frame by itself, where nothing is unfinished, completes just that
/// frame, which is its payload, and leaves nothing unfinished.
pub fn one_frame_is_given_as_it_is()
    ensures { (check : List ℕ → Bool) (before : List ℕ) (segment : Segment)
        → IsOneFrame check before segment
        → Feeds check before segment (segment.payload ∷ []) [] }
{}

/// A settled list joins to the same frames each time, and leaves the same bytes unfinished.
pub fn joining_has_one_answer()
    ensures { (check : List ℕ → Bool) (before : List ℕ) (settled : List (Option Segment))
        (frames others : List (List ℕ)) (after rest : List ℕ)
        → Joins check before settled frames after → Joins check before settled others rest
        → (frames ≡ others) × (after ≡ rest) }
{}

/// What two settled lists join to, one after the other, is what they join to end to end.
pub fn settled_lists_join_one_after_the_other()
    ensures { (check : List ℕ → Bool) (settled later : List (Option Segment))
        (before between after : List ℕ) (frames more : List (List ℕ))
        → Joins check before settled frames between → Joins check between later more after
        → Joins check before (settled ++ later) (frames ++ more) after }
{}

/// A lost segment completes no frame, and leaves nothing unfinished, as `Joiner::gap` does:
/// whatever was unfinished, the settled list goes on with nothing.
pub fn gap_is_a_loss()
    ensures alone { (check : List ℕ → Bool) (before after : List ℕ) (frames : List (List ℕ))
        → Joins check before (None ∷ []) frames after ↔ ((frames ≡ []) × (after ≡ [])) }
    ensures first { (check : List ℕ → Bool) (before after : List ℕ)
        (settled : List (Option Segment)) (frames : List (List ℕ))
        → Joins check before (None ∷ settled) frames after ↔ Joins check [] settled frames after }
{}

/// Each segment of a lawful cut points to a place within its payload, where it points to one at
/// all.
pub fn segments_of_a_lawful_cut_are_ready()
    ensures { (check : List ℕ → Bool) (frames chunks : List (List ℕ)) (first fill i : ℕ)
        (segments : List Segment) (segment : Segment)
        → IsLawfulCut check frames first fill chunks segments
        → slice_get segments i ≡ Some segment → IsReady segment }
{}

/// A frame that lies wholly in the first n chunks has in its span exactly the chunks that end after
/// its first byte and begin before its end.
pub fn span_is_given_by_places()
    ensures { (check : List ℕ → Bool) (frames chunks : List (List ℕ)) (j n i : ℕ)
        → AllByRecursion (IsFrame check) frames → j < length frames
        → place_of frames (j + 1) ≤ place_of chunks n
        → IsInSpan frames chunks j i
        ↔ ((place_of chunks i < place_of frames (j + 1))
        × (place_of frames j < place_of chunks (i + 1))) }
{}

/// What is unfinished after the segments of a cut: at most three zeros of fill where a frame ends,
/// and within a frame its front, or nothing where a segment was lost since the frame began.
pub fn unfinished_bytes_are_fill_or_the_front_of_a_frame()
    ensures { (check : List ℕ → Bool) (frames chunks : List (List ℕ))
        (first fill : ℕ) (segments : List Segment)
        (settled : List (Option Segment)) (joined : List (List ℕ)) (after : List ℕ)
        → IsLawfulCut check frames first fill chunks segments → IsSettledOf segments settled
        → Joins check [] settled joined after
        → IsLeftUnfinished frames chunks fill settled (length settled) after }
{}

/// The next segment of a cut completes exactly the frames whose last byte it carries and of whose
/// span no earlier segment was lost.
pub fn each_segment_completes_the_kept_frames_that_end_in_it()
    ensures { (check : List ℕ → Bool) (frames chunks : List (List ℕ))
        (first fill : ℕ) (segments : List Segment)
        (settled : List (Option Segment)) (joined : List (List ℕ)) (before after : List ℕ)
        (segment : Segment) (fed : List (List ℕ))
        → IsLawfulCut check frames first fill chunks segments → IsSettledOf segments settled
        → slice_get segments (length settled) ≡ Some segment
        → Joins check [] settled joined before
        → Feeds check before segment fed after
        → FiltersTo (IsCompletedBy frames chunks settled (length settled)) frames fed }
{}

/// Where no segment was lost, segment n of a cut completes exactly the frames whose last byte it
/// carries.
pub fn each_segment_completes_the_frames_that_end_in_it()
    ensures { (check : List ℕ → Bool) (frames chunks : List (List ℕ))
        (first fill n : ℕ) (segments : List Segment)
        (joined : List (List ℕ)) (before after : List ℕ) (segment : Segment) (fed : List (List ℕ))
        → IsLawfulCut check frames first fill chunks segments → slice_get segments n ≡ Some segment
        → Joins check [] (map Some (take n segments)) joined before
        → Feeds check before segment fed after
        → FiltersTo (λ j. EndsIn frames chunks j n) frames fed }
{}

/// The segments of a cut that were kept join to exactly the frames that end in what is settled and
/// of whose span no segment was lost.
pub fn settled_list_joins_to_the_frames_wholly_kept()
    ensures { (check : List ℕ → Bool) (frames chunks : List (List ℕ))
        (first fill : ℕ) (segments : List Segment)
        (settled : List (Option Segment)) (joined : List (List ℕ)) (after : List ℕ)
        → IsLawfulCut check frames first fill chunks segments → IsSettledOf segments settled
        → Joins check [] settled joined after
        → FiltersTo (IsWhollyKept frames chunks settled) frames joined }
{}

/// Where no segment of a cut was lost, they join to exactly the frames that lie wholly in its
/// chunks.
pub fn whole_cut_joins_to_the_frames_within_it()
    ensures { (check : List ℕ → Bool) (frames chunks : List (List ℕ))
        (first fill : ℕ) (segments : List Segment)
        (joined : List (List ℕ)) (after : List ℕ)
        → IsLawfulCut check frames first fill chunks segments
        → Joins check [] (map Some segments) joined after
        → FiltersTo (λ j. place_of frames (j + 1) ≤ place_of chunks (length chunks)) frames joined }
{}

/// The items at whose index a fact holds are these and no others.
pub fn filter_has_one_answer()
    ensures { (p : ℕ → Bool) (items chosen others : List (List ℕ))
        → FiltersTo (λ j. p j ≡ true) items chosen → FiltersTo (λ j. p j ≡ true) items others
        → chosen ≡ others }
{}
