//! The text of `join`: the frames that an input's segments join to, one a line.
ghost use Rattle.std.specs.Prelude.{◌≡◌, ◌↔◌, flat_map, IsTrue, IfOk, IfErr};
ghost use Rattle.text_lines.specs.Putting.{Puts};
ghost use Rattle.texts.specs.Join.{IsJoined, IsJoinFault, frame_line};

mod join_line;

use ccf::Joiner;
use docsis_wire::{Bytes, NoCheck};
use join_line::read_segment;
use std::alloc::Global;
use text_lines::{LineFault, PutText, TakeLine, TextBuffer, TextFault, put_hex, take_lines};

/// The segments of the lines so far of an input of `join`, joined: their frames.
#[derive(Drop)]
pub struct JoinInput {
    joiner: Joiner,
    frames: Vec<Bytes>,
}

impl JoinInput {
    ghost use Rattle.std.specs.Prelude.{[]};
    ghost use Rattle.texts.specs.Inside.Join.{IsJoinedSoFar};

    /// No segments yet, and no frames.
    pub fn new(alloc: Global) -> JoinInput
        ensures { IsJoinedSoFar [] result.joiner result.frames.items }
    {
        JoinInput {
            joiner: Joiner::new(alloc),
            frames: Vec::new(alloc),
        }
    }

    /// Whether no frame came of the segments.
    pub fn is_empty(&self) -> bool
        ensures { IsTrue result ↔ (self.now.frames.items ≡ []) }
    {
        self.frames.is_empty()
    }

    /// Puts a line for each frame.
    pub fn put_lines<O: PutText>(&self, out: &mut O)
        ensures { Puts O.after out.old (flat_map frame_line self.now.frames.items) out.new }
    {
        for frame in &self.frames {
            if out.is_closed() {
                return;
            }
            put_frame(out, frame.as_slice());
        }
    }
}

/// Puts the line of a frame.
fn put_frame<O: PutText>(out: &mut O, frame: &[u8])
    ensures { Puts O.after out.old (frame_line frame.now) out.new }
{
    put_hex(out, frame);
    out.put(b"\n");
}

impl TakeLine for JoinInput {
    ghost use Rattle.std.specs.Prelude.{List};
    ghost use Rattle.docsis_wire.specs.declared.segment.Segment.{Segment};
    ghost use Rattle.texts.specs.Join.Line.{join_format};
    ghost use Rattle.texts.specs.Inside.Join.{IsJoinedSoFar};

    ghost State = { List Segment };

    ghost format = { join_format };

    ghost stands_for = { λ segments input.
        IsJoinedSoFar segments input.joiner input.frames.items };

    fn take_line(&mut self, alloc: Global, field: &[u8], rest: &[u8]) -> Result<(), LineFault> {
        let segment = read_segment(alloc, field, rest)?;
        let fed = self.joiner.feed(alloc, &segment, &NoCheck)?;
        let mut frames = fed.frames;
        self.frames.append(&mut frames)?;
        Ok(())
    }
}

/// The text that stands for an input of `join`: the frames that its segments join to, one a line,
/// as lower-case digits. The segments are taken in order, none of them lost, whatever their
/// numbers.
///
/// Otherwise it reports the first faulty line, or that an allocation failed. That an input has at
/// most one text or one fault, and never both, is stated by
/// [`join_has_one_text`](crate::laws::join_has_one_text),
/// [`join_has_one_fault`](crate::laws::join_has_one_fault) and
/// [`faulty_input_of_join_has_no_text`](crate::laws::faulty_input_of_join_has_no_text).
pub fn join_lines(alloc: Global, input: &[u8]) -> Result<Vec<u8>, TextFault>
    ensures text { IfOk result (λ text. IsJoined input.now text.items) }
    ensures fault { IfErr result (IsJoinFault input.now) }
{
    let mut read = JoinInput::new(alloc);
    take_lines(alloc, input, &mut read)?;
    let mut text = TextBuffer::new(alloc);
    read.put_lines(&mut text);
    Ok(text.finish()?)
}
