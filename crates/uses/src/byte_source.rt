//! A source that reads its inputs from bytes, of which nothing is known before: a file, a pipe or a
//! socket, as each of these is a [`Read`].
//!
//! An input is a byte for its channel, one for its kind, and what follows it. Numbers have their
//! highest byte first.
//!
//! | bytes | of a grant, kind 0 | of a burst, kind 1 |
//! |---|---|---|
//! | 1, 1 | its channel, 0 | its channel, 1 |
//! | 4 | its number | the number of its grant |
//! | 2, 1 | its service identifier | 1 if its check is right, 0 if not |
//! | 4 | how many bytes are granted | how many bytes it has, at most 65,535 |
//! | as many | | these bytes |
ghost use Rattle.std.specs.Prelude.{◌≡◌, ◌∷◌, ◌++◌, [], length, IfOk};
ghost use Rattle.std.specs.Int.{w16, w32, to_be_bytes};
ghost use Rattle.std.specs.Io.KnownBytes.{Consumes};
ghost use Rattle.uses.specs.InputForms.{check_byte, kind_of, behind_kind, ReadsByte, ReadsInput};

use docsis_wire::Bytes;
use std::alloc::{AllocError, Global};
use std::io;
use std::io::{ErrorKind, Read};
use std::sync::{Arc, OnceLock};
use thiserror::Error;
use uplink::{ChannelInput, Input, LiveSource};

/// The kind of a grant.
const GRANT: u8 = 0;
/// The kind of a burst.
const BURST: u8 = 1;
/// The most bytes of a burst: a grant has no more.
const LONGEST: u32 = 65_535;
/// How often a reader that is interrupted is asked again.
const TRIES: u32 = 1_000_000;

/// Why a source couldn't read its next input.
#[derive(Clone, Copy, Debug, PartialEq, Eq, Error)]
pub enum InputFault {
    /// The bytes end within an input.
    #[error("an input is cut off")]
    CutOff,
    /// This is no kind of an input.
    #[error("no input is of kind {0}")]
    UnknownKind(u8),
    /// Whether a check is right is said by this, neither 0 nor 1.
    #[error("a check is 0 or 1, and not {0}")]
    UnknownCheck(u8),
    /// A burst would have this many bytes, more than 65,535.
    #[error("a burst of {0} bytes is too long")]
    TooLong(u32),
    /// The reader answered so.
    #[error("the reader failed")]
    Unreadable(ErrorKind),
    /// An allocation failed.
    #[error("out of memory")]
    OutOfMemory,
}

impl From<AllocError> for InputFault {
    fn from(_: AllocError) -> InputFault {
        InputFault::OutOfMemory
    }
}

impl From<io::Error> for InputFault {
    fn from(error: io::Error) -> InputFault {
        match error.kind() {
            ErrorKind::UnexpectedEof => InputFault::CutOff,
            ErrorKind::OutOfMemory => InputFault::OutOfMemory,
            kind => InputFault::Unreadable(kind),
        }
    }
}

/// How a source ended: its bytes ended behind an input, or there is this fault.
pub type SourceEnd = Result<(), InputFault>;

/// Gives the inputs that it reads, until its bytes end or have a fault. Bytes behind a fault are
/// not looked at.
#[derive(Drop)]
pub struct ByteSource<R> {
    alloc: Global,
    reader: R,
    ended: Option<SourceEnd>,
    told: Arc<OnceLock<SourceEnd>, Global>,
}

/// Says how a source ended. A receiver keeps its sources, so this stays with who made the source.
#[derive(Drop)]
pub struct EndOfSource {
    told: Arc<OnceLock<SourceEnd>, Global>,
}

impl EndOfSource {
    /// How the source ended, or `None` if it hasn't yet.
    pub fn get(&self) -> Option<SourceEnd> {
        self.told.get().copied()
    }
}

impl<R: Read + Drop> ByteSource<R> {
    ghost use Rattle.std.specs.Prelude.{[], IfOk};
    ghost use Rattle.uses.specs.ByteSource.{HasRead};

    /// A source that has read nothing yet, and what will say how it ended. `AllocError`: there is
    /// no memory for the word between the two.
    pub fn new(alloc: Global, reader: R) -> Result<(ByteSource<R>, EndOfSource), AllocError>
        ensures unread { IfOk result (λ made. HasRead R.remaining made.0 [] made.0) }
    {
        let Ok(told) = Arc::new(alloc, OnceLock::new()) else {
            return Err(AllocError);
        };
        let end = EndOfSource {
            told: Arc::try_clone(&told)?,
        };
        let source = ByteSource {
            alloc,
            reader,
            ended: None,
            told,
        };
        Ok((source, end))
    }
}

impl<R: Read + Drop> LiveSource for ByteSource<R> {
    ghost use Rattle.std.specs.Prelude.{IsSome};
    ghost use Rattle.uses.specs.ByteSource.{HasRead};

    ghost gave = { HasRead R.remaining };

    ghost is_over = { λ now. IsSome now.ended };

    fn next(&mut self) -> Option<ChannelInput> {
        if self.ended.is_some() {
            return None;
        }
        let end = match read_input(self.alloc, &mut self.reader) {
            Ok(Some(input)) => return Some(input),
            Ok(None) => Ok(()),
            Err(fault) => Err(fault),
        };
        self.ended = Some(end);
        let _ = self.told.try_set(end);
        None
    }
}

/// Reads the next input, or none if the bytes end before it.
fn read_input<R: Read>(alloc: Global, reader: &mut R) -> Result<Option<ChannelInput>, InputFault>
    ensures { IfOk result (ReadsInput (R.remaining reader.old) (R.remaining reader.new)) }
{
    let Some(channel) = read_channel(reader)? else {
        return Ok(None);
    };
    let input = read_behind_channel(alloc, reader)?;
    Ok(Some(ChannelInput { channel, input }))
}

/// Reads what follows the channel of an input.
fn read_behind_channel<R: Read>(alloc: Global, reader: &mut R) -> Result<Input, InputFault>
    ensures { IfOk result (λ input. Consumes (R.remaining reader.old) (R.remaining reader.new)
        (kind_of input ∷ behind_kind input)) }
{
    let input = match read_u8(reader)? {
        GRANT => read_grant(reader)?,
        BURST => read_burst(alloc, reader)?,
        kind => return Err(InputFault::UnknownKind(kind)),
    };
    Ok(input)
}

/// Reads a byte, or none if the bytes end before it. A reader that is interrupted is asked again.
fn read_channel<R: Read>(reader: &mut R) -> Result<Option<u8>, InputFault>
    ensures { IfOk result (ReadsByte (R.remaining reader.old) (R.remaining reader.new)) }
{
    let mut channel = [0u8; 1];
    for _ in 0..TRIES {
        match reader.read(&mut channel) {
            Ok(0) => return Ok(None),
            Ok(_) => return Ok(Some(channel[0])),
            Err(error) => {
                if error.kind() != ErrorKind::Interrupted {
                    return Err(InputFault::from(error));
                }
            }
        }
    }
    Err(InputFault::Unreadable(ErrorKind::Interrupted))
}

/// Reads what follows the kind of a grant.
fn read_grant<R: Read>(reader: &mut R) -> Result<Input, InputFault>
    ensures kind { IfOk result (λ input. kind_of input ≡ 0) }
    ensures read { IfOk result (λ input. Consumes (R.remaining reader.old) (R.remaining reader.new)
        (behind_kind input)) }
{
    let number = read_u32(reader)?;
    let sid = read_u16(reader)?;
    let bytes = read_u32(reader)?;
    Ok(Input::Grant { number, sid, bytes })
}

/// Reads what follows the kind of a burst.
fn read_burst<R: Read>(alloc: Global, reader: &mut R) -> Result<Input, InputFault>
    ensures kind { IfOk result (λ input. kind_of input ≡ 1) }
    ensures read { IfOk result (λ input. Consumes (R.remaining reader.old) (R.remaining reader.new)
        (behind_kind input)) }
{
    let grant = read_u32(reader)?;
    let hcs_ok = read_check(reader)?;
    let bytes = read_bytes(alloc, reader)?;
    Ok(Input::Burst {
        grant,
        hcs_ok,
        bytes,
    })
}

fn read_u8<R: Read>(reader: &mut R) -> Result<u8, InputFault>
    ensures { IfOk result (λ byte. Consumes (R.remaining reader.old) (R.remaining reader.new)
        (byte ∷ [])) }
{
    let mut byte = [0u8; 1];
    reader.read_exact(&mut byte)?;
    Ok(byte[0])
}

fn read_u16<R: Read>(reader: &mut R) -> Result<u16, InputFault>
    ensures { IfOk result (λ number. Consumes (R.remaining reader.old) (R.remaining reader.new)
        (to_be_bytes w16 number)) }
{
    let mut bytes = [0u8; 2];
    reader.read_exact(&mut bytes)?;
    Ok(number_u16(&bytes))
}

fn read_u32<R: Read>(reader: &mut R) -> Result<u32, InputFault>
    ensures { IfOk result (λ number. Consumes (R.remaining reader.old) (R.remaining reader.new)
        (to_be_bytes w32 number)) }
{
    let mut bytes = [0u8; 4];
    reader.read_exact(&mut bytes)?;
    Ok(number_u32(&bytes))
}

/// The numbers that these bytes are.
fn number_u16(bytes: &[u8; 2]) -> u16
    ensures { to_be_bytes w16 result ≡ bytes.now }
{
    u16::from_be_bytes(*bytes)
}

fn number_u32(bytes: &[u8; 4]) -> u32
    ensures { to_be_bytes w32 result ≡ bytes.now }
{
    u32::from_be_bytes(*bytes)
}

/// Reads whether a check is right.
fn read_check<R: Read>(reader: &mut R) -> Result<bool, InputFault>
    ensures { IfOk result (λ is_right. Consumes (R.remaining reader.old) (R.remaining reader.new)
        (check_byte is_right ∷ [])) }
{
    let mut flag = [0u8; 1];
    reader.read_exact(&mut flag)?;
    match flag[0] {
        0 => Ok(false),
        1 => Ok(true),
        other => Err(InputFault::UnknownCheck(other)),
    }
}

/// Reads how many bytes there are, and these.
fn read_bytes<R: Read>(alloc: Global, reader: &mut R) -> Result<Bytes, InputFault>
    ensures { IfOk result (λ bytes. Consumes (R.remaining reader.old) (R.remaining reader.new)
        (to_be_bytes w32 (length bytes) ++ bytes)) }
{
    let count = read_u32(reader)?;
    if count > LONGEST {
        return Err(InputFault::TooLong(count));
    }
    let mut bytes = vec![in alloc; 0u8; count as usize]?;
    reader.read_exact(&mut bytes)?;
    Ok(Bytes::from(bytes))
}
