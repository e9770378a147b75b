//! The rule by which a receiver decides by itself that segments are lost.
//!
//! On a channel the segments of a flow come in the modem's order. So once each channel of the flow
//! has brought a segment, what lies before the least of their last ones can't come any more, and
//! the flow skips to that one. [`LossRule`] says whether this is done, and whether the window also
//! slides.
//!
//! [`laws`] says what follows where the channels keep the modem's order, each segment falls into
//! the window, which may slide over an outage, and decisions that are handed in lose nothing that
//! still comes: each segment that comes is kept, an index that never comes is lost as soon as every
//! channel has come past it, and nothing that comes is lost.
//!
//! [`LastNumbers`] keeps of each channel of a flow how far ahead the last segment lies that came
//! there: [`LastNumbers::passed_by_all`] says to which number every channel has come, and
//! [`slid_to`] to which one a window slides. [`number_laws`] ties this to the rule, which the
//! definitions say by true indexes.
#![tactic(auto)]

mod known_channel;
mod last_numbers;
pub mod laws;
pub mod number_laws;
mod place;
mod rule;
mod slide;

pub use known_channel::KnownChannel;
pub use last_numbers::LastNumbers;
pub use place::Place;
pub use rule::LossRule;
pub use slide::slid_to;
