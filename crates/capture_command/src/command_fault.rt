//! Why a capture isn't read to its end.
ghost use Rattle.std.specs.Prelude.{◌≡◌, true, OnOk, OnErr};
ghost use Rattle.std.specs.Io.KnownBytes.{Appends};
ghost use Rattle.engines.specs.Device.{inner_of, has_failed, is_flushed};
ghost use Rattle.engines.specs.Transfer.{AppendsFront};
ghost use Rattle.capture_command.specs.Fault.{status_of, engine_fault, words_fault, map_fault};
ghost use Rattle.capture_command.specs.Fault.{setup_fault, fault_line};
ghost use Rattle.capture_command.specs.declared.command_fault.CaptureCommandFault.TheVariants as command_fault;

use arrayvec::ArrayString;
use capture_map::{MapFault, MapKind};
use command_line::UsageFault;
use engines::{Device, EngineFault, WriteFault, status, write_fault, write_text};
use receiver::SetupError;
use std::alloc::AllocError;
use std::io;
use std::io::Write;
use thiserror::Error;

/// Why the command `capture` didn't do its work.
#[derive(Clone, Copy, Debug, PartialEq, Eq, Error)]
pub enum CaptureCommandFault {
    /// A line of the map is at fault. Out of memory is reported as that.
    #[error("map: {0}")]
    Map(MapFault),
    /// The map can't be set up. No map that was read is so.
    #[error("the map cannot be used")]
    Setup,
    /// The map can't be opened or read.
    #[error("the map cannot be read")]
    MapFile,
    /// A file of the report, the JSON, the requests or the picture can't be made or written.
    #[error("a file cannot be written")]
    OutputFile,
    /// Frames were compared with those that the analyser joined itself, and one of them is only
    /// here or only there.
    #[error("the frames differ from the analyser's")]
    Differs,
    /// Frames were to be compared, and no flow that was asked for has one on either side.
    #[error("no frame was compared")]
    Uncompared,
    /// The words, the capture, the memory or the output.
    #[error(transparent)]
    Engine(EngineFault),
}

impl From<EngineFault> for CaptureCommandFault {
    ghost from_gives = { λ fault reported. reported ≡ engine_fault fault };

    fn from(fault: EngineFault) -> CaptureCommandFault {
        CaptureCommandFault::Engine(fault)
    }
}

impl From<UsageFault> for CaptureCommandFault {
    ghost from_gives = { λ fault reported. reported ≡ words_fault fault };

    fn from(fault: UsageFault) -> CaptureCommandFault {
        CaptureCommandFault::Engine(EngineFault::from(fault))
    }
}

impl From<AllocError> for CaptureCommandFault {
    fn from(_: AllocError) -> CaptureCommandFault {
        CaptureCommandFault::Engine(EngineFault::OutOfMemory)
    }
}

impl From<WriteFault> for CaptureCommandFault {
    fn from(_: WriteFault) -> CaptureCommandFault {
        CaptureCommandFault::Engine(EngineFault::Write)
    }
}

impl From<MapFault> for CaptureCommandFault {
    ghost from_gives = { λ fault reported. reported ≡ map_fault fault };

    fn from(fault: MapFault) -> CaptureCommandFault {
        match fault {
            MapFault::OutOfMemory => CaptureCommandFault::Engine(EngineFault::OutOfMemory),
            fault => CaptureCommandFault::Map(fault),
        }
    }
}

impl From<SetupError> for CaptureCommandFault {
    ghost from_gives = { λ fault reported. reported ≡ setup_fault fault };

    fn from(fault: SetupError) -> CaptureCommandFault {
        match fault {
            SetupError::OutOfMemory => CaptureCommandFault::Engine(EngineFault::OutOfMemory),
            _ => CaptureCommandFault::Setup,
        }
    }
}

impl CaptureCommandFault {
    /// The exit status of this fault: 1 to 5.
    pub fn status(&self) -> u8
        ensures { result ≡ status_of self.now }
    {
        match self {
            CaptureCommandFault::Map(_) | CaptureCommandFault::Setup => 1,
            CaptureCommandFault::Differs | CaptureCommandFault::Uncompared => 5,
            CaptureCommandFault::MapFile | CaptureCommandFault::OutputFile => 4,
            CaptureCommandFault::Engine(fault) => status(fault),
        }
    }

    /// Writes the line that reports it.
    pub fn report<E: Write>(&self, err: &mut Device<E>) -> Result<(), WriteFault>
        ensures written { OnOk result (Appends (E.contents (inner_of err.old))
            (E.contents (inner_of err.new)) (fault_line self.now)) }
        ensures flushed { OnOk result (is_flushed err.new ≡ true) }
        ensures sound { OnOk result (has_failed err.new ≡ has_failed err.old) }
        ensures front { OnErr result (AppendsFront (E.contents (inner_of err.old))
            (E.contents (inner_of err.new)) (fault_line self.now)) }
        ensures failed { OnErr result (has_failed err.new ≡ true) }
    {
        match self {
            CaptureCommandFault::Map(MapFault::Line { line, kind }) => {
                write_text(err, map_line(*line, *kind).as_str().as_bytes())
            }
            CaptureCommandFault::Map(MapFault::OutOfMemory) => {
                write_fault(&EngineFault::OutOfMemory, err)
            }
            CaptureCommandFault::Setup => {
                write_text(err, b"segrx: the map cannot be used\n".as_slice())
            }
            CaptureCommandFault::MapFile => {
                write_text(err, b"segrx: the map cannot be read\n".as_slice())
            }
            CaptureCommandFault::OutputFile => {
                write_text(err, b"segrx: a file cannot be written\n".as_slice())
            }
            CaptureCommandFault::Differs => write_text(
                err,
                b"segrx: the frames differ from the analyser's\n".as_slice(),
            ),
            CaptureCommandFault::Uncompared => {
                write_text(err, b"segrx: no frame was compared\n".as_slice())
            }
            CaptureCommandFault::Engine(fault) => write_fault(fault, err),
        }
    }
}

/// The line that reports a fault of this line of the map, with its line feed: at most 62 bytes.
fn map_line(number: u64, kind: MapKind) -> ArrayString<64>
    ensures { result.bytes ≡ fault_line (command_fault.Map (MapFault.Line number kind)) }
{
    let mut buffer = itoa::Buffer::new();
    let mut line = ArrayString::new();
    line.push_str("segrx: map: line ");
    line.push_str(buffer.format(number));
    line.push_str(": ");
    line.push_str(kind.text());
    line.push_str("\n");
    line
}
