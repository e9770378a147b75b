//! Facts about files of frames, each stated in the contract of a function whose body is empty.
ghost use Rattle.std.specs.Prelude.{◌≡◌, ◌<◌, ℕ, true, List};
ghost use Rattle.capture.specs.PcapngBlocks.{CaptureParts};
ghost use Rattle.capture_map.specs.declared.map.CaptureMap.{CaptureMap};
ghost use Rattle.flow_selection.specs.declared.selection.Selection.{Selection};
ghost use Rattle.flow_selection.specs.Selection.{is_selected};
ghost use Rattle.frame_comparison.specs.Aligned.{Arrival, flow_at_end};
ghost use Rattle.frame_comparison.specs.Seen.{counts_of};
ghost use Rattle.timed_frames.specs.declared.timed_step.TimedStep.{TimedStep};
ghost use Rattle.frame_engine.specs.declared.settings.CaptureSettings.{CaptureSettings};
ghost use Rattle.frame_engine.specs.declared.comparing.Comparing.{Comparing};
ghost use Rattle.frame_engine.specs.Compared.{AreArrivals, AreTheAnalysers, frames_in};
ghost use Rattle.frame_engine.specs.Comparing.{Finishes, IsComparedFile};
ghost use Rattle.frame_engine.specs.Judged.{EndsEqual, HasTheAnalysersFrames};
ghost use Rattle.frame_engine.specs.Joined.{of_all_flows, file_of, whole_file, IsJoinedSoFar};
ghost use Rattle.frame_engine.specs.Joined.{IsJoinedAtEnd, IsJoinedFile};

/// **The file of some flows lacks the frames of the others, and nothing else.** Of a capture of
/// which it is the file there is a whole file too, and one list of what came: the whole file has
/// all of its frames, and the other those that are left of it. So it is, too, of a file that a
/// fault cut short, of what came before the fault.
pub fn files_of_some_flows_are_of_the_same_frames()
    ensures whole { (settings : CaptureSettings) (capture_map : CaptureMap) (input text : List ℕ)
        → IsJoinedFile settings capture_map input text
        → (whole : List ℕ) × (timed : List TimedStep)
        × IsJoinedFile (of_all_flows settings) capture_map input whole
        × (whole ≡ whole_file settings capture_map timed)
        × (text ≡ file_of settings capture_map timed) }
    ensures so_far { (settings : CaptureSettings) (capture_map : CaptureMap)
        (records : List CaptureParts) (text : List ℕ)
        → IsJoinedSoFar settings capture_map records text
        → (whole : List ℕ) × (timed : List TimedStep)
        × IsJoinedSoFar (of_all_flows settings) capture_map records whole
        × (whole ≡ whole_file settings capture_map timed)
        × (text ≡ file_of settings capture_map timed) }
    ensures at_end { (settings : CaptureSettings) (capture_map : CaptureMap)
        (records : List CaptureParts) (text : List ℕ)
        → IsJoinedAtEnd settings capture_map records text
        → (whole : List ℕ) × (timed : List TimedStep)
        × IsJoinedAtEnd (of_all_flows settings) capture_map records whole
        × (whole ≡ whole_file settings capture_map timed)
        × (text ≡ file_of settings capture_map timed) }
{}

/// **Where in the end no frame of a selected flow is only one side's, the frames of the flow that
/// came are those that the analyser joined**, in the order of the records that hold these, byte by
/// byte.
pub fn frames_that_compare_equal_are_the_analysers()
    ensures { (selected : Selection) (capture_map : CaptureMap) (records : List CaptureParts)
        (timed : List TimedStep) (arrivals : List Arrival) (flows k : ℕ)
        → AreArrivals selected capture_map records timed arrivals
        → k < flows → is_selected selected k ≡ true
        → (counts_of (flow_at_end flows k arrivals)).only_analyser ≡ 0
        → (counts_of (flow_at_end flows k arrivals)).only_here ≡ 0
        → AreTheAnalysers capture_map k records (frames_in k timed) }
{
    frame_comparison::laws::nothing_lonely_means_equal();
}

/// **A file whose frames were compared, and in the end equal, has the analyser's frames.**
pub fn files_that_compare_equal_have_the_analysers_frames()
    ensures { (settings : CaptureSettings) (capture_map : CaptureMap) (old new : Comparing)
        (input text : List ℕ) → IsComparedFile settings capture_map old input text
        → Finishes old new → EndsEqual new
        → HasTheAnalysersFrames settings capture_map input text }
{
    frames_that_compare_equal_are_the_analysers();
}
