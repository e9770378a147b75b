//! What is drawn of a capture: for each flow how its segments came, over time, on each channel.
//!
//! A [`CapturePicture`] takes each burst ([`PictureBurst`]) and each [`Mark`], as a loss, and keeps
//! of them what a picture of 256 columns shows, so that its memory doesn't grow with the capture:
//! for each of the first eight flows and each column which indexes each channel brought, how far
//! they lay behind the newest one, and how many marks there were. A column begins with a
//! microsecond. Where the capture goes on past the last column, each two neighbours become one. A
//! flow that is shown takes some 140 kB.
//!
//! In the end [`put_picture`] puts the picture, as SVG of at most a million bytes: time runs to the
//! right and the index upwards, each channel has a colour, and below them stand the marks and how
//! far each channel lay behind.
//!
//! What matters most: what is kept and the text are those of the definitions `with_burst`,
//! `with_mark` and `picture_text`. [`laws`] says of them that an index is the nearest to the newest
//! one, and that nothing that was drawn gets lost where columns become one.
#![tactic(auto)]

mod chart;
mod colours;
mod column;
mod flow_picture;
mod grid;
mod index;
pub mod laws;
mod marks;
mod panel;
mod picture;
mod picture_text;
mod span;
mod svg;

pub use marks::{Mark, Marks};
pub use picture::{CapturePicture, PictureBurst, PictureChannel};
pub use picture_text::put_picture;
pub use span::Span;
