//! The files of `capture`.
ghost use Rattle.std.specs.Prelude.{◌≡◌, List, ℕ, IfOk, IfErr};
ghost use Rattle.engines.specs.Device.{inner_of};
ghost use Rattle.capture_command.specs.Program.{AreAllOf, IsMapOfFile};

use crate::command_fault::CaptureCommandFault;
use capture_map::{CaptureMap, read_map};
use engines::{Device, read_some, zeros};
use std::alloc::Global;
use std::fs;
use std::io::Read;
use std::rt::Files;

/// The longest map that is read, in bytes.
const MAP_MAX: usize = 16_777_216;
/// How many bytes are asked of its file at once.
const MAP_PIECE_BYTES: usize = 65_536;

/// All bytes that a reader gives.
fn read_all<R: Read>(alloc: Global, reader: &mut Device<R>) -> Result<Vec<u8>, CaptureCommandFault>
    ensures { IfOk result (λ text. AreAllOf (R.remaining (inner_of reader.old)) text.items) }
{
    let mut piece = zeros(alloc, MAP_PIECE_BYTES)?;
    let mut text = Vec::new(alloc);
    for _ in 0..=MAP_MAX {
        let Ok(count) = read_some(reader, &mut piece) else {
            return Err(CaptureCommandFault::MapFile);
        };
        if count == 0 {
            return Ok(text);
        }
        if count > MAP_MAX.saturating_sub(text.len()) {
            return Err(CaptureCommandFault::MapFile);
        }
        text.extend_from_slice(&piece[..count])?;
    }
    Err(CaptureCommandFault::MapFile)
}

/// The bytes of a file.
fn read_file<F: Files>(alloc: Global, rt: &F, path: &str) -> Result<Vec<u8>, CaptureCommandFault>
    ensures { IfOk result (λ text. (file : F.File) × AreAllOf (F.File.remaining file) text.items) }
{
    let Ok(file) = fs::open(rt, path) else {
        return Err(CaptureCommandFault::MapFile);
    };
    let mut file = Device::new(file);
    let text = read_all(alloc, &mut file);
    file.into_inner();
    text
}

/// The map that a file holds.
pub fn map_of_file<F: Files>(
    alloc: Global,
    rt: &F,
    path: &str,
) -> Result<CaptureMap, CaptureCommandFault>
    ensures { IfOk result (IsMapOfFile F.File.remaining) }
{
    let text = read_file(alloc, rt, path)?;
    Ok(read_map(alloc, &text)?)
}

/// A file that is made anew, to be written.
pub fn created<F: Files>(rt: &F, path: &str) -> Result<F::File, CaptureCommandFault>
    ensures fault { IfErr result (λ fault. fault ≡ CaptureCommandFault.OutputFile) }
{
    match fs::create(rt, path) {
        Ok(file) => Ok(file),
        Err(_) => Err(CaptureCommandFault::OutputFile),
    }
}
