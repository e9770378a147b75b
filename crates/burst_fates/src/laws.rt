//! What follows from what was told, each stated in the contract of a function whose body is empty.
ghost use Rattle.std.specs.Prelude.{◌≡◌, ◌<◌, ◌≤◌, ℕ, false, List, ◌∷◌, ◌++◌, Some, None, length};
ghost use Rattle.std.specs.List.{All};
ghost use Rattle.burst_fates.specs.Room.{most_told};
ghost use Rattle.burst_fates.specs.declared.burst_fate.BurstFate.TheVariants.{Kept};
ghost use Rattle.burst_fates.specs.declared.burst_fate.ToldFate.{ToldFate};
ghost use Rattle.burst_fates.specs.Fates.{IsOther, was_kept, known_of, kept_of};

/// **A burst that was told to be kept is known to be kept**, whatever was told of it then, if fewer
/// than 32,768 things were told since. Of another burst what was told last is known, so long; and
/// where at least so many were told since, all of other bursts, nothing is.
pub fn what_was_told_is_known()
    ensures kept { (before later : List ToldFate) (one : ToldFate)
        → length later < most_told → one.fate ≡ Kept
        → known_of one.id (kept_of (before ++ one ∷ later)) ≡ Some Kept }
    ensures known { (before later : List ToldFate) (one : ToldFate)
        → length later < most_told → All (IsOther one.id) later
        → was_kept one.id (kept_of before) ≡ false
        → known_of one.id (kept_of (before ++ one ∷ later)) ≡ Some one.fate }
    ensures forgotten { (before later : List ToldFate) (id : ℕ)
        → most_told ≤ length later → All (IsOther id) later
        → known_of id (kept_of (before ++ later)) ≡ None }
    ensures never { (told : List ToldFate) (id : ℕ)
        → All (IsOther id) told → known_of id (kept_of told) ≡ None }
{}
