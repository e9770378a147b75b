//! Lines that say how far the reading of a capture is.
ghost use Rattle.std.specs.Prelude.{◌≡◌, [], false, None, IfOk};
ghost use Rattle.engines.specs.Device.{has_failed};
ghost use Rattle.text_lines.specs.Putting.{Puts};
ghost use Rattle.capture_command.specs.Progress.{progress_line};

use engines::{Device, write_text};
use frame_engine::{CaptureProgress, TakeProgress};
use std::alloc::{AllocError, Global};
use std::io::Write;
use std::rt::Clock;
use std::time::Instant;
use text_lines::{PutText, TextBuffer, put_spaced, put_word};

/// Seconds after a line the next is due.
const BETWEEN: u64 = 1;

/// Puts how far the reading is.
fn put_progress<O: PutText>(out: &mut O, progress: CaptureProgress)
    ensures { Puts O.after out.old (progress_line progress) out.new }
{
    put_word(out, "bytes");
    put_spaced(out, progress.bytes);
    put_word(out, ", records");
    put_spaced(out, progress.records);
    put_word(out, ", frames");
    put_spaced(out, progress.frames);
    put_word(out, ", lost");
    put_spaced(out, progress.lost);
    put_word(out, "\n");
}

/// The line of it.
fn line_of(alloc: Global, progress: CaptureProgress) -> Result<Vec<u8>, AllocError>
    ensures { IfOk result (λ line. line.items ≡ progress_line progress) }
{
    let mut text = TextBuffer::new(alloc);
    put_progress(&mut text, progress);
    text.finish()
}

/// Writes a line once a second, as the reading goes on. Where the clock fails or goes back, or
/// memory for a line runs out, none is written; where the writer failed, no more.
#[derive(Drop)]
pub struct ProgressLines<'a, C, W> {
    alloc: Global,
    clock: &'a C,
    writer: &'a mut Device<W>,
    /// When the last line was due, or the reading began. None where no lines are asked for.
    last: Option<Instant>,
}

impl<'a, C: Clock, W: Write> ProgressLines<'a, C, W> {
    /// None was written; the first is due in a second, if lines are asked for.
    pub fn new(
        alloc: Global,
        clock: &'a C,
        writer: &'a mut Device<W>,
        asked: bool,
    ) -> ProgressLines<'a, C, W>
        ensures same_reference { result.writer.ghost_name ≡ writer.entry.ghost_name }
        ensures same_writer { result.writer.now ≡ writer.old }
        ensures unasked { asked ≡ false → result.last ≡ None }
    {
        let last = if asked {
            Instant::now(clock).ok()
        } else {
            None
        };
        ProgressLines {
            alloc,
            clock,
            writer,
            last,
        }
    }
}

impl<C: Clock, W: Write> TakeProgress for ProgressLines<'_, C, W> {
    ghost use Rattle.capture_command.specs.Progress.{HasToldLines};

    ghost after = { HasToldLines W.contents };

    fn is_due(&mut self) -> bool {
        let Some(last) = self.last else {
            return false;
        };
        let Ok(now) = Instant::now(self.clock) else {
            return false;
        };
        if now.duration_since(last).as_secs() < BETWEEN {
            return false;
        }
        self.last = Some(now);
        true
    }

    fn take(&mut self, progress: CaptureProgress) {
        if self.last.is_none() || self.writer.failed() {
            return;
        }
        if let Ok(line) = line_of(self.alloc, progress) {
            let _ = write_text(self.writer, &line);
        }
    }
}
