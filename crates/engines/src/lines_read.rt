//! Reads a device to its end, line by line.
ghost use Rattle.std.specs.Prelude.{IfOk, IfErr, OnOk};
ghost use Rattle.engines.specs.Device.{inner_of, IsFresh};
ghost use Rattle.engines.specs.Engine.{IsReadBefore};
ghost use Rattle.engines.specs.Transfer.{IsReadToEnd};
ghost use Rattle.engines.specs.LinesRead.{HasReadLines, HasLinesCause};

use crate::device::Device;
use crate::fault::EngineFault;
use crate::transfer::{PIECE_BYTES, read_piece, zeros};
use std::alloc::Global;
use std::io::Read;
use text_lines::{LineInput, TakeLine};

/// Reads all that a reader gives, if it is at most 268,435,456 bytes, and answers what is made of
/// its lines. No more of the input than a piece and a line is held. It is read to its end also
/// where a line is faulty or an allocation failed, so that a reader that fails is reported first;
/// but where there is no memory for a piece nothing is read.
///
/// `Read`: the reader failed or gave more. `Trace`: the first faulty line. `OutOfMemory`: an
/// allocation failed.
pub fn read_lines<T: TakeLine + Drop, R: Read>(
    alloc: Global,
    taker: T,
    reader: &mut Device<R>,
) -> Result<T, EngineFault>
    requires { IsFresh reader.old }
    ensures read { (start : T.State) → T.stands_for start taker → IfOk result
        (HasReadLines T.format start T.stands_for (R.remaining (inner_of reader.old))) }
    ensures to_end { OnOk result (IsReadToEnd reader.new (R.remaining (inner_of reader.new))) }
    ensures cause { (start : T.State) → T.stands_for start taker → IfErr result
        (HasLinesCause T.format start (R.remaining (inner_of reader.old)) reader.new) }
    ensures read_first { IfErr result
        (IsReadBefore reader.new (R.remaining (inner_of reader.new))) }
{
    let mut room = zeros(alloc, PIECE_BYTES)?;
    let mut input = LineInput::new(alloc, taker);
    let mut given = 0;
    let mut count = read_piece(reader, &mut room, given)?;
    while count > 0 {
        input.take_piece(alloc, &room[..count]);
        given += count;
        count = read_piece(reader, &mut room, given)?;
    }
    Ok(input.finish(alloc)?)
}
