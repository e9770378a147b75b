//! A record of a capture, as a reader of pcapng gives it.
ghost use Rattle.std.specs.Prelude.{◌≡◌, ◌↔◌, ◌<◌, length, IsTrue};

/// The link type of an XRA analyser's packets.
pub const XRA: u32 = 273;

/// A packet as it was captured.
#[derive(Debug, Drop)]
pub struct CaptureRecord {
    /// The type of the packet, [`XRA`] for those of an XRA analyser.
    pub link_type: u32,
    /// Nanoseconds since the beginning of 1970.
    pub nanoseconds: u64,
    /// How many bytes the packet had.
    pub original: u32,
    /// The bytes that were captured. A reader gives at most 1 MiB.
    pub bytes: Vec<u8>,
}

/// What a reader took from a piece.
#[derive(Debug, Drop)]
pub struct CaptureTaken<'a> {
    /// The record that these bytes completed, if they did.
    pub record: Option<CaptureRecord>,
    /// What is left of the piece: it has to be handed in next.
    pub rest: &'a [u8],
}

impl CaptureRecord {
    /// Whether the capture kept fewer bytes than the packet had.
    pub fn is_cut_short(&self) -> bool
        ensures { IsTrue result ↔ (length self.now.bytes.items < self.now.original) }
    {
        self.bytes.len() < self.original as usize
    }
}
