//! The colours of channels.
ghost use Rattle.std.specs.Prelude.{◌≡◌};
ghost use Rattle.capture_picture.specs.Svg.{colour_text};

/// Sixteen colours that are told apart on white.
const COLOURS: [[u8; 7]; 16] = [
    *b"#1f77b4",
    *b"#ff7f0e",
    *b"#2ca02c",
    *b"#d62728",
    *b"#9467bd",
    *b"#8c564b",
    *b"#e377c2",
    *b"#7f7f7f",
    *b"#bcbd22",
    *b"#17becf",
    *b"#000075",
    *b"#808000",
    *b"#f032e6",
    *b"#3cb44b",
    *b"#9a6324",
    *b"#46f0f0",
];

/// The colour of a channel.
pub(crate) fn colour_of(channel: u8) -> [u8; 7]
    ensures { result ≡ colour_text channel }
{
    COLOURS[usize::from(channel % 16)]
}
