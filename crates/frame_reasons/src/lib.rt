//! Why frames that an analyser joined were not joined of a capture's bursts.
//!
//! [`Reasons`] is told what became of bursts, as they come and as something is replied to them, and
//! lists why frames are missing that a comparison lists as only the analyser's: by what is known
//! of the bursts that are named of them when they are listed.
//!
//! What matters most: what is told is what the replies say (`told_in_steps`), and each reason is
//! that of the definition `reason_of`, of what is known then.
#![tactic(auto)]

mod fates;
mod reasons;

pub use reasons::Reasons;
