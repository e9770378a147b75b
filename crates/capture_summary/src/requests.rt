//! Requests as CSV.
ghost use Rattle.std.specs.Prelude.{◌≡◌, [], List, ℕ, IsTrue, IfOk, map};
ghost use Rattle.csv.specs.Writing.{default_writer, row_text};
ghost use Rattle.text_lines.specs.Putting.{seconds_text};
ghost use Rattle.capture_summary.specs.Requests.{names_line, request_line};
ghost use Rattle.capture_summary.specs.Requests.{IsReady, IsNumberField};

use csv::{Writer, WriterBuilder};
use itoa::Buffer;
use lane::Request;
use std::alloc::{AllocError, Global};
use text_lines::{TextBuffer, put_seconds};

/// The text of a time in seconds.
fn seconds_of(alloc: Global, nanoseconds: u64) -> Result<Vec<u8>, AllocError>
    ensures { IfOk result (λ text. text.items ≡ seconds_text nanoseconds) }
{
    let mut text = TextBuffer::new(alloc);
    put_seconds(&mut text, nanoseconds);
    text.finish()
}

/// The digits of a number, made in this buffer.
fn digits_in(buffer: &mut Buffer, number: u64) -> &[u8]
    ensures { IsNumberField number result.now }
{
    buffer.format(number).as_bytes()
}

/// Lines of requests as CSV, in memory: fields with commas between them, and a line feed behind
/// each line. They are whole as long as there was memory for all that was put.
#[derive(Drop)]
pub struct RequestLines {
    writer: Writer<Vec<u8>>,
    whole: bool,
    ghost ready: { IsTrue whole → IsReady writer },
}

impl RequestLines {
    ghost use Rattle.capture_summary.specs.LinesInMemory.{HasGained, lines_text};

    /// No lines.
    pub fn new(alloc: Global) -> RequestLines
        ensures empty { lines_text result ≡ [] }
        ensures whole { IsTrue result.whole }
    {
        RequestLines {
            writer: WriterBuilder::new().from_writer(Vec::new(alloc)),
            whole: true,
        }
    }

    /// Puts a line of these fields.
    fn put_fields(&mut self, fields: &[&[u8]])
        ensures { HasGained self.old (row_text default_writer (map (λ field. field.now) fields.now)) self.new }
    {
        self.whole = self.whole && self.writer.write_fields(fields).is_ok();
    }

    /// Puts the line of names: `time,channel,sid,flow,cluster,units`.
    pub fn put_names(&mut self)
        ensures { HasGained self.old names_line self.new }
    {
        self.put_fields(&[b"time", b"channel", b"sid", b"flow", b"cluster", b"units"]);
    }

    /// Puts the line of a request, which a burst of this SID made at this time, in nanoseconds
    /// since the beginning of 1970. The time that is put is in seconds.
    pub fn put(&mut self, alloc: Global, nanoseconds: u64, sid: u16, request: &Request)
        ensures { HasGained self.old (request_line nanoseconds sid request.now) self.new }
    {
        let Ok(time) = seconds_of(alloc, nanoseconds) else {
            self.whole = false;
            return;
        };
        let channel = u64::from(request.channel);
        let sid = u64::from(sid);
        let cluster = u64::from(request.cluster);
        let units = u64::from(request.units);
        self.put_fields(&[
            time.as_slice(),
            digits_in(&mut Buffer::new(), channel),
            digits_in(&mut Buffer::new(), sid),
            digits_in(&mut Buffer::new(), request.flow as u64),
            digits_in(&mut Buffer::new(), cluster),
            digits_in(&mut Buffer::new(), units),
        ]);
    }

    /// The lines. Otherwise it reports that an allocation failed.
    pub fn finish(self) -> Result<Vec<u8>, AllocError>
        ensures whole { IfOk result (λ text. IsTrue self.whole) }
        ensures text { IfOk result (λ text. text.items ≡ lines_text self) }
    {
        if !self.whole {
            return Err(AllocError);
        }
        self.writer.into_inner().map_err(|_| AllocError)
    }
}
