//! Reads from a device piece by piece, and writes a whole text to one.
ghost use Rattle.std.specs.Prelude.{◌≡◌, ◌≢◌, ◌<◌, ◌≤◌, ◌+◌, ◌-◌, ◌^◌, [], length, min, take, IsOk};
ghost use Rattle.std.specs.Prelude.{true, false, IfOk, IfErr, OnOk, OnErr, vec_len};
ghost use Rattle.std.specs.Io.KnownBytes.{Appends, Consumes, Keeps, IsAtEnd};
ghost use Rattle.engines.specs.Device.{inner_of, has_failed, given_of, is_flushed};
ghost use Rattle.engines.specs.Device.{is_read_behind_flushes};
ghost use Rattle.engines.specs.FlushedReads.{MakesReads, bytes_given};
ghost use Rattle.engines.specs.Transfer.{AppendsFront, IsLeftFlushed, IsReadFault};
ghost use Rattle.engines.specs.Inside.Transfer.{IsCounted};

use crate::device::Device;
use crate::fault::{EngineFault, WriteFault};
use crate::flushed_reads::ReadBehind;
use std::alloc::{AllocError, Global};
use std::io::{Read, Write};

/// The longest input that an engine reads, in bytes.
pub const INPUT_MAX: usize = 268_435_456;

/// How many bytes are asked of a reader at once.
pub const PIECE_BYTES: usize = 262_144;

/// Room for a read.
pub fn zeros(alloc: Global, count: usize) -> Result<Vec<u8>, AllocError>
    ensures { IfOk result (λ room. vec_len room ≡ count) }
{
    vec![in alloc; 0u8; count]
}

/// Makes one read of a reader, whatever is flushed. It answers how many bytes it gave, at the front
/// of the room: none only at its end.
pub fn read_some<R: Read>(reader: &mut Device<R>, room: &mut [u8]) -> Result<usize, EngineFault>
    requires room { 0 < length room.old }
    ensures within { IfOk result (λ count. count ≤ length room.new) }
    ensures taken { IfOk result (λ count. Consumes (R.remaining (inner_of reader.old))
        (R.remaining (inner_of reader.new)) (take count room.new)) }
    ensures end { IfOk result (λ count. count ≡ 0 → IsAtEnd (R.remaining (inner_of reader.new))) }
    ensures given { IfOk result (λ count. given_of reader.new
        ≡ min (given_of reader.old + count) (2 ^ 64 - 1)) }
    ensures sound { IfOk result (λ _. has_failed reader.new ≡ has_failed reader.old) }
    ensures failed { OnErr result (has_failed reader.new ≡ true) }
    ensures kept { OnErr result (Keeps (R.remaining (inner_of reader.old))
        (R.remaining (inner_of reader.new))) }
    ensures only { IfErr result (λ fault. fault ≡ EngineFault.Read) }
    ensures behind { is_read_behind_flushes reader.new ≡ false }
{
    match reader.read(room) {
        Ok(count) => Ok(count),
        Err(_) => Err(EngineFault::Read),
    }
}

/// Makes one read of a reader, as [`read_some`] does, where all that was written to a writer is
/// flushed, and shows the reader that writer: the read may take long, and what was written has to
/// be seen before.
pub fn read_behind<R: ReadBehind, W: Write>(
    reader: &mut Device<R>,
    writer: &Device<W>,
    room: &mut [u8],
) -> Result<usize, EngineFault>
    requires room { 0 < length room.old }
    requires flushed { is_flushed writer.now ≡ true }
    ensures within { IfOk result (λ count. count ≤ length room.new) }
    ensures taken { IfOk result (λ count. Consumes (R.remaining (inner_of reader.old))
        (R.remaining (inner_of reader.new)) (take count room.new)) }
    ensures end { IfOk result (λ count. count ≡ 0 → IsAtEnd (R.remaining (inner_of reader.new))) }
    ensures given { IfOk result (λ count. given_of reader.new
        ≡ min (given_of reader.old + count) (2 ^ 64 - 1)) }
    ensures sound { IfOk result (λ _. has_failed reader.new ≡ has_failed reader.old) }
    ensures failed { OnErr result (has_failed reader.new ≡ true) }
    ensures kept { OnErr result (Keeps (R.remaining (inner_of reader.old))
        (R.remaining (inner_of reader.new))) }
    ensures only { IfErr result (λ fault. fault ≡ EngineFault.Read) }
    ensures behind { is_read_behind_flushes reader.new ≡ is_read_behind_flushes reader.old }
    ensures shown { MakesReads R.after (W.contents (inner_of writer.now))
        (inner_of reader.old) (inner_of reader.new) (bytes_given result room.new) }
{
    let Ok(count) = reader.read_behind(writer, room) else {
        return Err(EngineFault::Read);
    };
    Ok(count)
}

/// Makes one read of a reader that gave so many bytes before. It answers how many it gave now, at
/// the front of the room: none only at its end.
pub(crate) fn read_piece<R: Read>(
    reader: &mut Device<R>,
    room: &mut [u8],
    given: usize,
) -> Result<usize, EngineFault>
    requires room { 0 < length room.old }
    requires counted { IsCounted reader.old given }
    ensures within { IfOk result (λ count. count ≤ length room.new) }
    ensures taken { IfOk result (λ count. Consumes (R.remaining (inner_of reader.old))
        (R.remaining (inner_of reader.new)) (take count room.new)) }
    ensures end { IfOk result (λ count. count ≡ 0 → IsAtEnd (R.remaining (inner_of reader.new))) }
    ensures counted { IfOk result (λ count. IsCounted reader.new (given + count)) }
    ensures failed { OnErr result (IsReadFault reader.new) }
    ensures only { IfErr result (λ fault. fault ≡ EngineFault.Read) }
{
    let Ok(count) = reader.read(room) else {
        return Err(EngineFault::Read);
    };
    if count > INPUT_MAX - given {
        return Err(EngineFault::Read);
    }
    Ok(count)
}

/// Writes all of some bytes. Where the writer fails, a front of them may have gone out.
pub(crate) fn write_bytes<W: Write>(writer: &mut Device<W>, bytes: &[u8]) -> Result<(), WriteFault>
    ensures written { OnOk result (Appends (W.contents (inner_of writer.old))
        (W.contents (inner_of writer.new)) bytes.now) }
    ensures sound { OnOk result (has_failed writer.new ≡ has_failed writer.old) }
    ensures front { OnErr result (AppendsFront (W.contents (inner_of writer.old))
        (W.contents (inner_of writer.new)) bytes.now) }
    ensures failed { OnErr result (has_failed writer.new ≡ true) }
{
    let mut rest = bytes;
    while !rest.is_empty() {
        let count = writer.write(rest)?;
        if count == 0 {
            return Err(WriteFault);
        }
        rest = &rest[count..];
    }
    Ok(())
}

/// Writes a whole text, and flushes. An empty one makes neither write nor flush. Where the writer
/// fails, a front of the text may have gone out.
pub fn write_text<W: Write>(writer: &mut Device<W>, text: &[u8]) -> Result<(), WriteFault>
    ensures written { OnOk result (Appends (W.contents (inner_of writer.old))
        (W.contents (inner_of writer.new)) text.now) }
    ensures flushed { OnOk result (text.now ≢ [] → is_flushed writer.new ≡ true) }
    ensures left_flushed { OnOk result (IsLeftFlushed writer.old writer.new) }
    ensures empty { text.now ≡ [] → IsOk result × (writer.new ≡ writer.old) }
    ensures sound { OnOk result (has_failed writer.new ≡ has_failed writer.old) }
    ensures front { OnErr result (AppendsFront (W.contents (inner_of writer.old))
        (W.contents (inner_of writer.new)) text.now) }
    ensures failed { OnErr result (has_failed writer.new ≡ true) }
{
    if text.is_empty() {
        return Ok(());
    }
    write_bytes(writer, text)?;
    writer.flush()?;
    Ok(())
}
