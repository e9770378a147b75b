//! What a lane takes.
use docsis_wire::Bytes;

/// What comes in on one channel: a grant that was sent to a modem, or what was received in
/// one.
#[derive(Debug, Drop)]
pub enum Input {
    /// A grant under this number.
    Grant {
        /// Any number: it tells outstanding grants of the channel apart, and is free again once
        /// its grant is spent.
        number: u32,
        /// The service identifier to which the grant was made, 0 to 16,383.
        sid: u16,
        /// How many bytes were granted, the segment header included: 8 to 65,535.
        bytes: u32,
    },
    /// A burst, the bytes of one segment. A grant in which nothing was received is ended by a burst
    /// without bytes whose check is bad.
    Burst {
        /// The number of the grant in which it was received.
        grant: u32,
        /// Whether the check sequence of the segment header is right.
        hcs_ok: bool,
        /// The bytes of the segment, any number of them, none included.
        bytes: Bytes,
    },
}
