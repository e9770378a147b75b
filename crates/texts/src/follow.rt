//! The text of `follow`: the lines of what happens as a trace is followed.

mod event_lines;
mod happening;
mod happening_list;
mod lines;
mod settings;

pub use happening::{Happening, InputKind, InputName, flow_admitted};
pub use happening_list::HappeningList;
pub use lines::{put_closed, put_happened};
pub use settings::FollowSettings;
