//! The check of a frame's header that a caller hands in.
ghost use Rattle.std.specs.Prelude.{◌≡◌, ℕ, List, Bool, true};

/// A check of the header of a frame: of its bytes from FC to the end of the header check sequence.
/// This crate and the joiner ask it of such bytes alone, 6 to 246 of them.
///
/// The answer of one check is a function of the bytes. It is meant to take no memory.
pub trait HeaderCheck {
    ghost accepts: { Self → List ℕ → Bool };

    /// Whether the header passes.
    fn passes(&self, header: &[u8]) -> bool
        ensures { result ≡ accepts self.now header.now };
}

/// The check that every header passes. With it a frame is any frame of the generic format:
/// `laws::frame_without_check_is_a_generic_frame`.
#[derive(Clone, Copy, Debug, PartialEq, Eq)]
pub struct NoCheck;

impl HeaderCheck for NoCheck {
    ghost accepts = { λ _ _. true };

    fn passes(&self, _header: &[u8]) -> bool {
        true
    }
}
