//! The command `capture` over any runtime with files, any reader that may be shown the output, and
//! any two writers.
ghost use Rattle.std.specs.Prelude.{◌≡◌, ◌++◌, true, false, None, Err, ℕ, List, [], map, Result};
ghost use Rattle.std.specs.Prelude.{OnOk, OnErr, IfOk, IfErr, IfSome};
ghost use Rattle.std.specs.Io.KnownBytes.{Appends};
ghost use Rattle.engines.specs.Device.{inner_of, has_failed, IsFresh};
ghost use Rattle.engines.specs.Transfer.{AppendsFront};
ghost use Rattle.engines.specs.Writing.{IsWritten};
ghost use Rattle.text_lines.specs.Putting.{Puts};
ghost use Rattle.capture_summary.specs.SummaryText.{summary_text};
ghost use Rattle.capture_command.specs.Progress.{SaysSummary, SaysProgress, SaysAsked};
ghost use Rattle.frame_engine.specs.Begun.{ComparesNothing};
ghost use Rattle.frame_engine.specs.Judged.{EndsEqual};
ghost use Rattle.engines.specs.declared.fault.EngineFault.TheVariants.{Write};
ghost use Rattle.capture_command.specs.declared.command_fault.CaptureCommandFault.TheVariants.{Differs};
ghost use Rattle.capture_command.specs.declared.command_fault.CaptureCommandFault.TheVariants.{Engine};
ghost use Rattle.frame_comparison.specs.Seen.{have_none_alone};
ghost use Rattle.capture_command.specs.declared.command_fault.CaptureCommandFault.{CaptureCommandFault};
ghost use Rattle.capture_command.specs.Program.{Captures, Obeys, ComesOf, status_of_outcome};
ghost use Rattle.capture_command.specs.Program.{DoesAsked, ShowsJoined, ShowsCaptured, IsReported};

use crate::asked::{AskedFiles, CaptureAsked, CaptureWords, read_capture_words};
use crate::command_fault::CaptureCommandFault;
use crate::files::{created, map_of_file};
use crate::progress_lines::ProgressLines;
use capture_json::summary_json;
use capture_map::CaptureMap;
use capture_picture::put_picture;
use capture_summary::{CaptureSummary, put_report, put_summary};
use comparison_report::put_comparison_report;
use engines::{Device, EngineFault, ReadBehind, TextWriter, WriteFault, held_room, write_text};
use flow_selection::Selection;
use frame_comparison::{FrameComparison, put_comparison};
use frame_engine::{CaptureTally, Comparing, FrameReading, join_capture};
use std::alloc::{AllocError, Global};
use std::convert::AsStr;
use std::io::Write;
use std::rt::{Clock, Files};
use text_lines::{PutText, put_number, put_word};

/// What a file shows of a capture.
#[derive(Clone, Copy)]
enum Shown {
    Report,
    Json,
    /// If no burst is missing in it.
    Picture,
}

/// Puts the report, and how the frames compare with the analyser's, where they are compared.
fn put_whole_report<O: PutText>(out: &mut O, tally: &CaptureTally, comparing: &Comparing) {
    put_report(out, &tally.summary);
    if let Some(comparison) = comparing.comparison() {
        put_comparison_report(out, comparison, comparing.reasons(), comparing.strangers());
    }
}

/// The JSON of what was counted, and of how the frames compare.
fn whole_json(
    alloc: Global,
    tally: &CaptureTally,
    comparing: &Comparing,
) -> Result<Vec<u8>, AllocError> {
    summary_json(
        alloc,
        &tally.summary,
        comparing.comparison(),
        comparing.reasons(),
        comparing.strangers(),
    )
}

/// Writes a file.
fn write_shown<W: Write>(
    alloc: Global,
    tally: &CaptureTally,
    comparing: &Comparing,
    shown: Shown,
    file: &mut Device<W>,
) -> Result<(), CaptureCommandFault> {
    let mut room = held_room(alloc)?;
    let mut text = TextWriter::new(file, &mut room);
    match shown {
        Shown::Report => put_whole_report(&mut text, tally, comparing),
        Shown::Json => text.put(&whole_json(alloc, tally, comparing)?),
        Shown::Picture => match tally.picture() {
            Some(picture) => put_picture(&mut text, picture),
            None => return Err(CaptureCommandFault::Engine(EngineFault::OutOfMemory)),
        },
    }
    match text.finish() {
        Ok(()) => Ok(()),
        Err(_) => Err(CaptureCommandFault::OutputFile),
    }
}

/// Writes the file of this path, if one is asked for.
fn write_file<F: Files>(
    alloc: Global,
    rt: &F,
    path: &Option<String>,
    tally: &CaptureTally,
    comparing: &Comparing,
    shown: Shown,
) -> Result<(), CaptureCommandFault> {
    let Some(path) = path else {
        return Ok(());
    };
    let mut file = Device::new(created(rt, path.as_str())?);
    let written = write_shown(alloc, tally, comparing, shown, &mut file);
    file.into_inner();
    written
}

/// The SFIDs of the flows of a map.
fn sfids_of(alloc: Global, summary: &CaptureSummary) -> Result<Vec<u32>, AllocError> {
    let mut sfids = Vec::with_capacity(alloc, summary.flows.len())?;
    for flow in &summary.flows {
        sfids.push(flow.sfid)?;
    }
    Ok(sfids)
}

/// Puts how many of the analyser's frames no flow has, if there are some.
fn put_strangers<O: PutText>(out: &mut O, count: u64)
    ensures { (text : List ℕ) × Puts O.after out.old text out.new }
{
    if count == 0 {
        return;
    }
    put_word(out, "  the analyser's of no flow of the map: ");
    put_number(out, count);
    put_word(out, "\n");
}

/// Puts how the frames compare with the analyser's, and how many of these no flow has.
fn put_compared<O: PutText>(
    out: &mut O,
    comparing: &Comparing,
    comparison: &FrameComparison,
    sfids: &[u32],
)
    ensures { (text : List ℕ) × Puts O.after out.old text out.new }
{
    put_comparison(out, comparison, comparing.reasons(), sfids);
    put_strangers(out, comparing.strangers());
}

/// Puts that, where frames are compared.
fn put_comparing<O: PutText>(out: &mut O, comparing: &Comparing, sfids: &[u32])
    ensures { (text : List ℕ) × Puts O.after out.old text out.new }
{
    let Some(comparison) = comparing.comparison() else {
        return;
    };
    put_compared(out, comparing, comparison, sfids);
}

/// Puts the summary of what was counted, and how the frames compare with the analyser's, where they
/// are compared.
fn put_counted<O: PutText>(out: &mut O, tally: &CaptureTally, comparing: &Comparing, sfids: &[u32])
    ensures { (more : List ℕ)
        × Puts O.after out.old (summary_text tally.now.summary ++ more) out.new }
{
    put_summary(out, &tally.summary);
    put_comparing(out, comparing, sfids);
}

/// Writes that. The room is empty, and no other memory is taken.
fn write_counted<E: Write>(
    tally: &CaptureTally,
    comparing: &Comparing,
    sfids: &[u32],
    room: &mut Vec<u8>,
    err: &mut Device<E>,
) -> Result<(), WriteFault>
    requires { room.old.items ≡ [] }
    ensures { (more : List ℕ) × IsWritten E.contents (summary_text tally.now.summary ++ more)
        err.old err.new result }
{
    let mut text = TextWriter::new(err, room);
    put_counted(&mut text, tally, comparing, sfids);
    text.finish()
}

/// Writes the summary. It fails too where a write failed before, as one of how far the reading was.
fn write_summary<E: Write>(
    alloc: Global,
    tally: &CaptureTally,
    comparing: &Comparing,
    sfids: &[u32],
    err: &mut Device<E>,
) -> Result<(), CaptureCommandFault>
    ensures said { SaysSummary E.contents err.old err.new }
    ensures sound { OnOk result (has_failed err.new ≡ false) }
{
    let mut room = held_room(alloc)?;
    write_counted(tally, comparing, sfids, &mut room, err)?;
    if err.failed() {
        return Err(CaptureCommandFault::Engine(EngineFault::Write));
    }
    Ok(())
}

/// Tells of lines of requests that were lost.
fn tell_lost_requests(tally: &CaptureTally) -> Result<(), CaptureCommandFault> {
    match tally.lost_requests() {
        None => Ok(()),
        Some(EngineFault::OutOfMemory) => {
            Err(CaptureCommandFault::Engine(EngineFault::OutOfMemory))
        }
        Some(_) => Err(CaptureCommandFault::OutputFile),
    }
}

/// Tells that the frames differ from the analyser's, or that there are none to be compared, where
/// they are compared.
fn tell_difference(comparing: &Comparing) -> Result<(), CaptureCommandFault>
    ensures equal { OnOk result (EndsEqual comparing.now) }
    ensures differs { result ≡ Err Differs → IfSome comparing.now.comparison
        (λ one. have_none_alone one.counts ≡ false) }
{
    let Some(comparison) = comparing.comparison() else {
        return Ok(());
    };
    if !comparison.is_whole() {
        return Err(CaptureCommandFault::Engine(EngineFault::OutOfMemory));
    }
    if !comparison.is_equal() {
        return Err(CaptureCommandFault::Differs);
    }
    if comparison.counts().iter().all(|one| one.both == 0) {
        return Err(CaptureCommandFault::Uncompared);
    }
    Ok(())
}

/// Writes what was counted: the summary, and report, JSON and picture where they are asked for.
/// Each is written though another fails; the first fault is told, behind these that lines of
/// requests were lost, and last that the frames differ from the analyser's.
fn write_counts<F: Files, E: Write>(
    alloc: Global,
    rt: &F,
    files: &AskedFiles,
    tally: &CaptureTally,
    comparing: &Comparing,
    sfids: &[u32],
    err: &mut Device<E>,
) -> Result<(), CaptureCommandFault>
    ensures equal { OnOk result (EndsEqual comparing.now) }
    ensures said { SaysSummary E.contents err.old err.new }
    ensures sound { OnOk result (has_failed err.new ≡ false) }
{
    let summary = write_summary(alloc, tally, comparing, sfids, err);
    let report = write_file(alloc, rt, &files.report, tally, comparing, Shown::Report);
    let json = write_file(alloc, rt, &files.json, tally, comparing, Shown::Json);
    let picture = write_file(alloc, rt, &files.picture, tally, comparing, Shown::Picture);
    summary?;
    report?;
    json?;
    picture?;
    tell_lost_requests(tally)?;
    tell_difference(comparing)
}

/// Nothing was counted, of a capture with this map of which these flows are selected. What the
/// files need is kept.
fn new_tally(
    alloc: Global,
    capture_map: &CaptureMap,
    selected: &Selection,
    files: &AskedFiles,
) -> Result<CaptureTally, AllocError> {
    let with_requests = files.requests.is_some();
    let mut tally = CaptureTally::new(alloc, capture_map, selected, with_requests)?;
    if files.picture.is_some() {
        tally.draw(alloc, capture_map)?;
    }
    Ok(tally)
}

/// Frames of a capture with this map are compared where that is asked for, and nothing came yet.
fn new_comparing(
    alloc: Global,
    capture_map: &CaptureMap,
    compares: bool,
) -> Result<Comparing, AllocError>
    ensures asked { compares ≡ true → IfOk result (ComparesNothing capture_map.now) }
    ensures unasked { compares ≡ false
        → IfOk result (λ comparing. comparing.comparison ≡ None) }
{
    if !compares {
        return Ok(Comparing::nothing());
    }
    Comparing::new(alloc, capture_map.flows.len())
}

/// The file for the requests, made anew, if one is asked for.
fn created_requests<F: Files>(
    rt: &F,
    files: &AskedFiles,
) -> Result<Option<Device<F::File>>, CaptureCommandFault> {
    match &files.requests {
        Some(path) => Ok(Some(Device::new(created(rt, path.as_str())?))),
        None => Ok(None),
    }
}

/// Joins the capture that the reader gives, and writes what was counted, also where a fault ends
/// it. How far it is goes to `err` on the way, where that is asked for.
fn capture<F: Files + Clock, R: ReadBehind, W: Write, E: Write>(
    alloc: Global,
    rt: &F,
    asked: CaptureAsked,
    reader: &mut Device<R>,
    out: &mut Device<W>,
    err: &mut Device<E>,
) -> Result<(), CaptureCommandFault>
    requires reader { IsFresh reader.old }
    requires out { IsFresh out.old }
    ensures captures { Captures R.remaining W.contents F.File.remaining asked.settings
        asked.compares reader.old reader.new out.old out.new result }
    ensures says { SaysProgress R.remaining E.contents asked.settings asked.progress
        reader.old reader.new err.old err.new }
    // At each read just the file of all records that were read before stood flushed in `out`.
    ensures shown { ShowsJoined R.remaining W.contents F.File.remaining R.after asked.settings
        (inner_of reader.old) (inner_of reader.new) (inner_of out.old) }
    // All that was said was written where all was done.
    ensures sound { OnOk result (has_failed err.new ≡ false) }
{
    let CaptureAsked {
        map,
        settings,
        compares,
        files,
        progress,
    } = asked;
    frame_engine::laws::files_that_compare_equal_have_the_analysers_frames();
    let capture_map = map_of_file(alloc, rt, map.as_str())?;
    let mut tally = new_tally(alloc, &capture_map, &settings.selected, &files)?;
    let mut comparing = new_comparing(alloc, &capture_map, compares)?;
    let sfids = sfids_of(alloc, &tally.summary)?;
    let reading = FrameReading::new(alloc, settings, capture_map)?;
    let mut requests = created_requests(rt, &files)?;
    let mut told = ProgressLines::new(alloc, rt, err, progress);
    let joined = join_capture(
        alloc,
        reading,
        &mut tally,
        &mut comparing,
        &mut requests,
        reader,
        out,
        &mut told,
    );
    if let Some(file) = requests {
        file.into_inner();
    }
    comparing.finish(alloc);
    let counted = write_counts(alloc, rt, &files, &tally, &comparing, &sfids, err);
    joined?;
    counted
}

/// Prints help.
fn print_help<W: Write>(out: &mut Device<W>, text: &str) -> Result<(), CaptureCommandFault>
    ensures written { OnOk result (Appends (W.contents (inner_of out.old))
        (W.contents (inner_of out.new)) text.now) }
    ensures front { OnErr result (AppendsFront (W.contents (inner_of out.old))
        (W.contents (inner_of out.new)) text.now) }
    ensures fault { IfErr result (λ fault. fault ≡ Engine Write) }
{
    match write_text(out, text.as_bytes()) {
        Ok(()) => Ok(()),
        Err(_) => Err(CaptureCommandFault::Engine(EngineFault::Write)),
    }
}

/// Does what the words ask for, the program's name first, between a reader and a writer that were
/// not used yet. How far the reading is, where they ask for it, and the summary go to `err`, but
/// not the line of a fault.
pub fn obey_words<S: AsStr, F: Files + Clock, R: ReadBehind, W: Write, E: Write>(
    alloc: Global,
    rt: &F,
    words: &[S],
    reader: &mut Device<R>,
    out: &mut Device<W>,
    err: &mut Device<E>,
) -> Result<(), CaptureCommandFault>
    requires reader { IsFresh reader.old }
    requires out { IsFresh out.old }
    ensures obeys { Obeys R.remaining W.contents F.File.remaining (map S.text words.now)
        reader.old reader.new out.old out.new result }
    // At each read just the file of all records that were read before stood flushed in `out`.
    ensures shown { ShowsCaptured R.remaining W.contents F.File.remaining R.after
        (map S.text words.now) (inner_of reader.old) (inner_of reader.new) (inner_of out.old) }
    ensures does { DoesAsked R.remaining W.contents F.File.remaining (map S.text words.now)
        reader.old reader.new out.old out.new result }
    // How far the reading was is said just if the words ask for it.
    ensures says { SaysAsked R.remaining E.contents (map S.text words.now)
        reader.old reader.new err.old err.new }
{
    match read_capture_words(alloc, words)? {
        CaptureWords::Capture(asked) => capture(alloc, rt, asked, reader, out, err),
        CaptureWords::Help(text) => print_help(out, text.as_str()),
    }
}

/// Answers the exit status of an outcome, and writes the line of its fault, if it has one. That the
/// line cannot be written changes nothing.
fn report_outcome<E: Write>(outcome: &Result<(), CaptureCommandFault>, err: &mut Device<E>) -> u8
    ensures status { result ≡ status_of_outcome outcome.now }
    ensures report { IsReported E.contents outcome.now err.old err.new }
{
    match outcome {
        Ok(()) => 0,
        Err(fault) => {
            let _ = fault.report(err);
            fault.status()
        }
    }
}

/// The whole command: it does what the words ask for, the program's name first, and answers the
/// exit status: 0 where it was done, also for help; 1 for a fault of the map or of the capture, 2
/// for usage, 3 for out of memory, 4 for a failed read or write, 5 where frames that were to be
/// compared differ or there are none. A fault's line goes to `err`, behind the summary, and before
/// that, where it is asked for, once a second how far the reading is.
pub fn capture_program<S, F, R, O, E>(
    alloc: Global,
    rt: &F,
    words: &[S],
    reader: R,
    out: O,
    err: E,
) -> u8
where
    S: AsStr,
    F: Files + Clock,
    R: ReadBehind + Drop,
    O: Write + Drop,
    E: Write + Drop,
    ensures { (outcome : Result (Unit {0}) CaptureCommandFault)
        × (result ≡ status_of_outcome outcome)
        × ComesOf R.remaining O.contents F.File.remaining E.contents
        (map S.text words.now) reader out err outcome }
{
    let mut reader = Device::new(reader);
    let mut out = Device::new(out);
    let mut err = Device::new(err);
    let outcome = obey_words(alloc, rt, words, &mut reader, &mut out, &mut err);
    let status = report_outcome(&outcome, &mut err);
    reader.into_inner();
    out.into_inner();
    err.into_inner();
    status
}
