//! Puts the segments of a service flow, which come over several channels, back into the order of
//! their sequence numbers.
//!
//! Numbers run from 0 to 8191 and then begin again. [`Window`] holds the items that came ahead of
//! their turn and gives out the one whose number is expected; it is generic in the item.
//!
//! The calls, in the order of use:
//!
//! 1. [`Window::new`] is told the first number and the width, and reserves all memory.
//! 2. [`Window::offer`] takes an item under its number, and answers by how far the number lies
//!    ahead of the expected one: `Late`, `Beyond`, `Repeat`, each with the item back, or `Kept`.
//! 3. [`Window::take_next`] gives the item whose turn it is and expects the next number;
//!    [`Window::next`] only looks at it.
//! 4. [`Window::declare`] gives the expected number up as lost, if a later one is held, and
//!    [`Window::declare_to`] all before a number. [`Window::skip_to`] gives up all before a number
//!    whether or not a later one is held. When to do so is for the caller to decide.
//! 5. [`Window::expected`] and [`Window::held`] tell the state.
//!
//! [`offset`] says how far a number lies ahead of another one.
//!
//! Contracts see a window as its expected number, its width and a finite map from the held numbers
//! to the items, and each call is an equation on these three. The contract that matters most is
//! that of [`Window::offer`]: which verdict comes when, and that only `Kept` changes anything.
//! [`laws`] says what follows for calls one after another, as that what is kept under the expected
//! number is taken next.
//!
//! A caller that is proved: `crates/uses/src/window.rt` puts items that came in any order into the
//! order of their numbers.
#![tactic(auto)]

pub mod laws;
mod number;
mod ring;
mod verdict;
mod window;

pub use number::offset;
pub use verdict::{Declared, Verdict};
pub use window::Window;

/// How many sequence numbers there are. They run from 0 to 8191 and then begin again
/// (CM-SP-MULPIv3.0, the sequence number of the segment header).
pub const MODULUS: u16 = 8192;

/// How many numbers lie ahead of an expected number, itself included: half of them all. The others
/// lie behind it.
pub const NUMBERS_AHEAD: u16 = MODULUS / 2;

/// The greatest width of a window: as many numbers as lie ahead (this project's profile).
pub const WIDTH_MAX: u16 = NUMBERS_AHEAD;
