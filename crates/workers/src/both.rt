//! Two values of which both are wanted.
ghost use Rattle.std.specs.Prelude.{◌≡◌, IfOk, IfSome, Ok, Some};

use std::alloc::AllocError;

/// Both, if both are there.
pub fn both_done<A: Drop, B: Drop>(one: Option<A>, other: Option<B>) -> Option<(A, B)>
    ensures { IfSome result (λ pair. (one ≡ Some pair.0) × (other ≡ Some pair.1)) }
{
    Some((one?, other?))
}

/// Both, if for both there was memory.
pub fn both_made<A: Drop, B: Drop>(
    one: Result<A, AllocError>,
    other: Result<B, AllocError>,
) -> Result<(A, B), AllocError>
    ensures { IfOk result (λ pair. (one ≡ Ok pair.0) × (other ≡ Ok pair.1)) }
{
    Ok((one?, other?))
}
