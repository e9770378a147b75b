//! The bytes of a file of frames that aren't written yet.
ghost use Rattle.std.specs.Prelude.{◌≡◌, ◌∷◌, ◌++◌, [], true, OnOk, OnErr, IfOk};
ghost use Rattle.std.specs.Io.KnownBytes.{Appends};
ghost use Rattle.engines.specs.Device.{inner_of, has_failed};
ghost use Rattle.engines.specs.Transfer.{AppendsFront, IsLeftFlushed};
ghost use Rattle.capture.specs.Pcap.{header_bytes};
ghost use Rattle.frame_records.specs.Frames.{file_header};
ghost use Rattle.frame_engine.specs.Written.{id_of, origin_of, frame_written, written_in};

use capture_map::MapChannel;
use docsis_wire::Bytes;
use engines::{Device, WriteFault, write_text};
use frame_records::{FrameLink, FrameOrigin, LONGEST_FRAME, put_file_header, put_frame};
use std::alloc::{AllocError, Global};
use std::io::Write;
use timed_frames::{LastBurst, TimedStep};

/// The upstream channel id of a channel, or 0 where the map has none.
fn id_of(channels: &[MapChannel], channel: usize) -> u32
    ensures { result ≡ id_of channels.now channel }
{
    match channels
        .iter()
        .find(|one| usize::from(one.channel) == channel)
    {
        Some(one) => one.id,
        None => 0,
    }
}

/// Where a frame came from that this burst completed.
fn origin_of(channels: &[MapChannel], burst: LastBurst) -> FrameOrigin
    ensures { result ≡ origin_of channels.now burst }
{
    FrameOrigin {
        channel: id_of(channels, burst.channel),
        sid: burst.sid,
        burst_id: burst.burst_id,
    }
}

/// The bytes of a file of frames that aren't written yet.
#[derive(Drop)]
pub(crate) struct FrameFile {
    pub(crate) link: FrameLink,
    pub(crate) channels: Vec<MapChannel>,
    pub(crate) bytes: Vec<u8>,
}

impl FrameFile {
    /// The header of a file of frames, for the channels of a map.
    pub fn new(
        alloc: Global,
        link: FrameLink,
        channels: &[MapChannel],
    ) -> Result<FrameFile, AllocError>
        ensures link { IfOk result (λ file. file.link ≡ link) }
        ensures channels { IfOk result (λ file. file.channels.items ≡ channels.now) }
        ensures bytes { IfOk result (λ file. file.bytes.items ≡ header_bytes (file_header link)) }
    {
        let channels = Vec::from_slice(alloc, channels)?;
        let mut bytes = Vec::new(alloc);
        put_file_header(&mut bytes, link)?;
        Ok(FrameFile {
            link,
            channels,
            bytes,
        })
    }

    /// Appends the record of a frame of at most 65,541 bytes.
    fn put_frame(
        &mut self,
        alloc: Global,
        burst: LastBurst,
        frame: &Bytes,
    ) -> Result<(), AllocError>
        ensures put { OnOk result (self.new.bytes.items ≡ self.old.bytes.items
            ++ frame_written self.old.link self.old.channels.items burst frame.now) }
        ensures refused { OnErr result (self.new.bytes.items ≡ self.old.bytes.items) }
        ensures link { self.new.link ≡ self.old.link }
        ensures channels { self.new.channels ≡ self.old.channels }
    {
        if frame.len() > LONGEST_FRAME {
            return Ok(());
        }
        let origin = origin_of(&self.channels, burst);
        put_frame(
            alloc,
            &mut self.bytes,
            self.link,
            burst.time,
            &origin,
            frame.as_slice(),
        )
    }

    /// Appends what is written of something that came.
    fn put(&mut self, alloc: Global, step: &TimedStep) -> Result<(), AllocError>
        ensures put { OnOk result (self.new.bytes.items ≡ self.old.bytes.items
            ++ written_in self.old.link self.old.channels.items
            (step.now ∷ [])) }
        ensures refused { OnErr result (self.new.bytes.items ≡ self.old.bytes.items) }
        ensures link { self.new.link ≡ self.old.link }
        ensures channels { self.new.channels ≡ self.old.channels }
    {
        match step {
            TimedStep::Frame { burst, frame, .. } => self.put_frame(alloc, *burst, frame),
            _ => Ok(()),
        }
    }

    /// Appends what is written of all that came, or nothing.
    pub fn put_all(&mut self, alloc: Global, steps: &[TimedStep]) -> Result<(), AllocError>
        ensures put { OnOk result (self.new.bytes.items ≡ self.old.bytes.items
            ++ written_in self.old.link self.old.channels.items steps.now) }
        ensures refused { OnErr result (self.new.bytes.items ≡ self.old.bytes.items) }
        ensures link { self.new.link ≡ self.old.link }
        ensures channels { self.new.channels ≡ self.old.channels }
    {
        let kept = self.bytes.len();
        for step in steps {
            if self.put(alloc, step).is_err() {
                self.bytes.truncate(kept);
                return Err(AllocError);
            }
        }
        Ok(())
    }

    /// Writes the bytes that aren't written yet, and flushes.
    pub fn write<W: Write>(&mut self, writer: &mut Device<W>) -> Result<(), WriteFault>
        ensures written { OnOk result (Appends (W.contents (inner_of writer.old))
            (W.contents (inner_of writer.new)) self.old.bytes.items) }
        ensures left_flushed { OnOk result (IsLeftFlushed writer.old writer.new) }
        ensures sound { OnOk result (has_failed writer.new ≡ has_failed writer.old) }
        ensures front { OnErr result (AppendsFront (W.contents (inner_of writer.old))
            (W.contents (inner_of writer.new)) self.old.bytes.items) }
        ensures failed { OnErr result (has_failed writer.new ≡ true) }
        ensures none_left { OnOk result (self.new.bytes.items ≡ []) }
        ensures link { self.new.link ≡ self.old.link }
        ensures channels { self.new.channels ≡ self.old.channels }
    {
        write_text(writer, &self.bytes)?;
        self.bytes.clear();
        Ok(())
    }
}
