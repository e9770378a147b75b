//! Who takes what a receiver gives.
ghost use Rattle.std.specs.Prelude.{◌++◌, ◌∷◌, [], List};
ghost use Rattle.consumer.specs.declared.given.Given.{Given};

use docsis_wire::Bytes;
use lane::Request;

/// Takes what a receiver gives, one after another. It can't refuse: one that can't keep what it is
/// given says so itself, as [`Collected`](crate::Collected) does.
pub trait Consumer {
    // The first became the second by being given this list, in order.
    ghost after: { Self → List Given → Self → Type 0 };

    /// Takes a whole frame of the flow with this index.
    fn frame(&mut self, flow: usize, frame: Bytes)
        ensures { (start : Self) (given : List Given) → after start given self.old
            → after start (given ++ Given.Frame flow frame ∷ []) self.new };

    /// Takes a request for grants.
    fn request(&mut self, request: Request)
        ensures { (start : Self) (given : List Given) → after start given self.old
            → after start (given ++ Given.Asked request ∷ []) self.new };
}
