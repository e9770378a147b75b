//! The text of `cut`: the segments that an input's frames are cut into, one a line.
ghost use Rattle.std.specs.Prelude.{◌≡◌, ◌<◌, ◌++◌, min, IfOk, IfErr, OnOk};
ghost use Rattle.docsis_wire.specs.Header.{header_bytes};
ghost use Rattle.docsis_wire.specs.Limits.{sequence_modulus};
ghost use Rattle.hex.specs.Hex.{encode_lower};
ghost use Rattle.docsis_wire.specs.Pieces.{IsCuttable};
ghost use Rattle.text_lines.specs.Lines.{lines_of};
ghost use Rattle.text_lines.specs.Putting.{Puts};
ghost use Rattle.text_lines.specs.Format.{IsRead, IsReadingFault};
ghost use Rattle.texts.specs.AnyHeader.{any_header};
ghost use Rattle.texts.specs.Cut.Line.{nothing, cut_format};
ghost use Rattle.texts.specs.Cut.{IsCutText, IsCutFault, CannotCut, IsPrinted, PutsCut};
ghost use Rattle.texts.specs.Cut.{segment_line, cut_text_length};

mod cut_line;

use cut_line::{CutLine, read_cut_line};
use docsis_wire::{
    Bytes, Cutter, FillByte, HEADER_BYTES, NoCheck, Piece, SegmentParts, write_segment,
};
use std::alloc::{AllocError, Global};
use text_lines::{
    LineFault, ParseFault, PutText, TakeLine, TextBuffer, TextFault, put_hex, take_lines,
};

/// The frames and the pieces of the lines so far of an input of `cut`, each in their order.
#[derive(Drop)]
pub struct CutInput {
    frames: Vec<Bytes>,
    pieces: Vec<Piece>,
}

impl CutInput {
    ghost use Rattle.std.specs.Prelude.{[]};

    /// No frames yet, and no pieces.
    pub fn new(alloc: Global) -> CutInput
        ensures frames { result.frames.items ≡ [] }
        ensures pieces { result.pieces.items ≡ [] }
    {
        CutInput {
            frames: Vec::new(alloc),
            pieces: Vec::new(alloc),
        }
    }

    /// The cut of the frames into the pieces, of which no segment was given yet, or their first
    /// fault. The first segment has the number `first`, 0 to 8191. It takes no memory.
    pub fn cutter(&self, first: u16, fill: FillByte) -> Result<Cutter<'_>, TextFault>
        requires { first < sequence_modulus }
        ensures begins { IfOk result (λ cutter. cutter ≡ record {
          frames = self.now.frames.items;
          pieces = self.now.pieces.items;
          first = first;
          fill = fill;
          made = 0;
        }) }
        ensures cuttable { OnOk result
            (IsCuttable any_header self.now.frames.items self.now.pieces.items) }
        ensures fault { IfErr result
            (CannotCut self.now.frames.items self.now.pieces.items) }
    {
        let cutter = Cutter::new(&self.frames, &self.pieces, first, fill, &NoCheck)?;
        Ok(cutter)
    }
}

impl TakeLine for CutInput {
    ghost use Rattle.std.specs.Prelude.{◌≡◌};
    ghost use Rattle.texts.specs.Cut.Line.{FramesAndPieces, cut_format};

    ghost State = { FramesAndPieces };

    ghost format = { cut_format };

    ghost stands_for = { λ said input.
        said ≡ record { frames = input.frames.items; pieces = input.pieces.items } };

    fn take_line(&mut self, alloc: Global, field: &[u8], rest: &[u8]) -> Result<(), LineFault> {
        match read_cut_line(alloc, field, rest)? {
            CutLine::Frame(frame) => self.frames.push(frame)?,
            CutLine::Piece(piece) => self.pieces.push(piece)?,
        }
        Ok(())
    }
}

/// The frames and the pieces that the lines of an input carry. The input is freed.
fn read_cut_input(alloc: Global, input: Vec<u8>) -> Result<CutInput, ParseFault>
    ensures read { IfOk result (λ read. IsRead cut_format nothing (lines_of input.items)
        (record { frames = read.frames.items; pieces = read.pieces.items })) }
    ensures fault { IfErr result (IsReadingFault cut_format nothing (lines_of input.items)) }
{
    let mut read = CutInput::new(alloc);
    take_lines(alloc, &input, &mut read)?;
    Ok(read)
}

/// How long the lines of a cut's segments are, or the greatest number where they are longer.
fn text_length(read: &CutInput) -> usize
    ensures { result ≡ min (cut_text_length read.now.frames.items read.now.pieces.items) usize.MAX }
{
    let mut stream = 0usize;
    for frame in &read.frames {
        stream = stream.saturating_add(frame.len());
    }
    let mut data = 0usize;
    let mut fill = 0usize;
    for piece in &read.pieces {
        data = data.saturating_add(usize::from(piece.bytes));
        fill = fill.saturating_add(usize::from(piece.fill));
    }
    let headers = read.pieces.len().saturating_mul(HEADER_BYTES);
    let bytes = data
        .min(stream)
        .saturating_add(fill)
        .saturating_add(headers);
    bytes.saturating_mul(2).saturating_add(read.pieces.len())
}

/// Puts the digits of a segment's payload.
fn put_payload<O: PutText>(out: &mut O, segment: SegmentParts<'_>)
    ensures { Puts O.after out.old (encode_lower segment.entry.payload) out.new }
{
    let mut parts = segment;
    while let Some(part) = parts.next_part() {
        put_hex(out, part);
    }
}

/// Puts a segment's line, where that makes a difference.
fn put_segment<O: PutText>(out: &mut O, segment: SegmentParts<'_>)
    ensures { Puts O.after out.old (segment_line segment.entry) out.new }
{
    if out.is_closed() {
        return;
    }
    put_hex(out, &write_segment(&segment.head()));
    put_payload(out, segment);
    out.put(b"\n");
}

/// Puts a line for each segment of a cut, of which none was given yet. It takes no memory of its
/// own.
pub fn put_cut<O: PutText>(out: &mut O, cutter: Cutter<'_>)
    requires cuttable { IsCuttable any_header cutter.frames cutter.pieces }
    requires none_made { cutter.made ≡ 0 }
    ensures { PutsCut O.after cutter.entry out.old out.new }
{
    docsis_wire::laws::segments_made_one_by_one_are_the_cut();
    let mut cutter = cutter;
    while let Some(segment) = cutter.next() {
        put_segment(out, segment);
    }
}

/// The lines of the segments of a cut, in a text that begins with so much room.
fn whole_text(alloc: Global, cutter: Cutter<'_>, room: usize) -> Result<Vec<u8>, AllocError>
    requires cuttable { IsCuttable any_header cutter.frames cutter.pieces }
    requires none_made { cutter.made ≡ 0 }
    requires room { room ≡ min (cut_text_length cutter.frames cutter.pieces) usize.MAX }
    ensures { IfOk result (λ text. IsPrinted cutter.entry text.items) }
{
    let mut text = TextBuffer::with_capacity(alloc, room)?;
    put_cut(&mut text, cutter);
    text.finish()
}

/// The text that stands for an input of `cut`: the segments that its frames are cut into, one a
/// line, each as the lower-case digits of its header and its payload. The first one has the number
/// `first`, 0 to 8191.
///
/// Otherwise it reports the first faulty line, or, where no line is faulty, the first fault of the
/// frames and pieces, or that an allocation failed. That an input has at most one text or
/// one fault, and never both, is stated by [`cut_has_one_text`](crate::laws::cut_has_one_text),
/// [`cut_has_one_fault`](crate::laws::cut_has_one_fault) and
/// [`faulty_input_of_cut_has_no_text`](crate::laws::faulty_input_of_cut_has_no_text).
pub fn cut_lines(
    alloc: Global,
    input: Vec<u8>,
    first: u16,
    fill: FillByte,
) -> Result<Vec<u8>, TextFault>
    requires { first < sequence_modulus }
    ensures text { IfOk result (λ text. IsCutText first fill input.items text.items) }
    ensures fault { IfErr result (IsCutFault input.items) }
{
    let read = read_cut_input(alloc, input)?;
    let cutter = read.cutter(first, fill)?;
    Ok(whole_text(alloc, cutter, text_length(&read))?)
}
