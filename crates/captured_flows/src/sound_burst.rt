//! Bursts that wait.
use docsis_wire::Bytes;

/// A burst that its lane will admit.
#[derive(Debug, Drop)]
pub struct SoundBurst {
    /// Its service identifier.
    pub sid: u16,
    /// The analyser's number of the burst, where it has one.
    pub burst_id: Option<u64>,
    /// How many bytes its grant has, 8 to 65,535: as many as the burst at least.
    pub granted: u32,
    /// The bytes of a segment, whose header check is right.
    pub bytes: Bytes,
}
