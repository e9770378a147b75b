//! What follows from the definitions that the window's contracts cite.
//!
//! Each function states a law in its contract; its body is empty or only calls other laws.
ghost use Rattle.std.specs.Prelude.{◌≡◌, ℕ, ◌+◌, ◌<◌, ◌≤◌, ◌⊎◌, List, Some};
ghost use Rattle.std.specs.FinMap as map;
ghost use Rattle.reorder.specs.Limits.{modulus, numbers_ahead};
ghost use Rattle.reorder.specs.Number.{number_ahead};
ghost use Rattle.reorder.specs.View.{WindowView, IsLawful, held_at, IsHeld, offset_in};
ghost use Rattle.reorder.specs.View.{moved_on, moved_on_by};
ghost use Rattle.reorder.specs.Verdicts.{IsVerdict, after_offer, after_take_next, IsDeclared};
ghost use Rattle.reorder.specs.Verdicts.{declared_count, skipped_count};
ghost use Rattle.reorder.specs.Calls.{Call, after_call, after_calls, numbers_passed, Agree};
ghost use Rattle.reorder.specs.Calls.{LosesInTurn, PassesInTurn};
ghost use Rattle.reorder.specs.declared.verdict.Verdict.{Verdict};
ghost use Rattle.reorder.specs.declared.verdict.Declared.{Declared};

/// An item that is kept under the expected number is the next one taken, and then the window is as
/// it was but for the expected number, which is the following one.
pub fn kept_is_taken_next<T>()
    ensures item { (w : WindowView T) (item : T)
        → held_at (after_offer w w.expected item Verdict.Kept) w.expected ≡ Some item }
    ensures moved { (w : WindowView T) (item : T)
        → IsVerdict w w.expected item Verdict.Kept
        → after_take_next (after_offer w w.expected item Verdict.Kept) (Some item) ≡ moved_on w }
{}

/// The numbers that were taken, declared lost or skipped, the first of which was expected at first,
/// are late, whatever is called, until 4,096 more numbers have passed. Then they lie ahead again,
/// until the numbers have gone round once more.
pub fn passed_is_late<T>()
    ensures late { (w : WindowView T) (calls : List (Call T)) (passed : ℕ)
        → (item : T) (verdict : Verdict T)
        → IsLawful w → passed < numbers_passed calls → numbers_passed calls ≤ passed + numbers_ahead
        → IsVerdict (after_calls w calls) (number_ahead w.expected passed) item verdict
        → verdict ≡ Verdict.Late item }
    ensures ahead_again { (w : WindowView T) (calls : List (Call T)) (passed : ℕ) (item : T)
        → IsLawful w → passed + numbers_ahead < numbers_passed calls
        → numbers_passed calls ≤ passed + modulus
        → ¬ (IsVerdict (after_calls w calls) (number_ahead w.expected passed) item
        (Verdict.Late item)) }
{}

/// Two windows that agree on the expected number, the width and the held items are equal: every
/// call answers the same of both, and leaves them equal.
pub fn agreeing_windows_answer_alike<T>()
    ensures same { (v w : WindowView T) → Agree v w → v ≡ w }
    ensures offer { (v w : WindowView T) (number : ℕ) (item : T) (a b : Verdict T)
        → Agree v w → IsLawful w
        → IsVerdict v number item a → IsVerdict w number item b → a ≡ b }
    ensures next { (v w : WindowView T) → Agree v w
        → held_at v v.expected ≡ held_at w w.expected }
    ensures declare { (v w : WindowView T) (a b : Declared) → Agree v w
        → IsDeclared v a → IsDeclared w b → a ≡ b }
    ensures declare_to { (v w : WindowView T) (number : ℕ) → Agree v w
        → declared_count v number ≡ declared_count w number }
    ensures skip_to { (v w : WindowView T) (number : ℕ) → Agree v w
        → skipped_count v number ≡ skipped_count w number }
    ensures after { (v w : WindowView T) (call : Call T) → Agree v w
        → after_call v call ≡ after_call w call }
{}

/// To declare numbers lost up to a number is to declare the expected number lost as many times,
/// each time with the answer `Lost`. If the number lies ahead, then it is reached, or one more
/// time would not answer `Lost`.
pub fn declare_to_is_declare_repeated<T>()
    ensures repeated { (w : WindowView T) (number : ℕ) → IsLawful w
        → LosesInTurn w (declared_count w number) (moved_on_by w (declared_count w number)) }
    ensures ends { (w : WindowView T) (number : ℕ) → IsLawful w → number < modulus
        → 0 < offset_in w number → offset_in w number < numbers_ahead
        → (number_ahead w.expected (declared_count w number) ≡ number)
        ⊎ ((lost : ℕ)
        → ¬ (IsDeclared (moved_on_by w (declared_count w number)) (Declared.Lost lost))) }
{}

/// How many numbers are declared lost up to a number, said of each held number: not so many that
/// the given number or a held one passes, and so many that one of these two is reached, if the
/// number lies ahead and something is held.
pub fn declare_to_stops_at_number_or_held<T>()
    ensures up_to_number { (w : WindowView T) (number : ℕ) → IsLawful w
        → declared_count w number ≤ offset_in w number }
    ensures up_to_held { (w : WindowView T) (number held : ℕ) → IsLawful w → IsHeld w held
        → declared_count w number ≤ offset_in w held }
    ensures reached { (w : WindowView T) (number : ℕ) → IsLawful w
        → 0 < offset_in w number → offset_in w number < numbers_ahead → 0 < map.len w.held
        → (declared_count w number ≡ offset_in w number)
        ⊎ IsHeld w (number_ahead w.expected (declared_count w number)) }
    ensures none { (w : WindowView T) (number : ℕ)
        → ((offset_in w number ≡ 0) ⊎ (numbers_ahead ≤ offset_in w number)) ⊎ (map.len w.held ≡ 0)
        → declared_count w number ≡ 0 }
{}

/// To skip up to a number is to move on as many times, each time over an expected number that is
/// not held. If the number does not lie behind, then it is expected afterwards, or the number that
/// is expected is held.
pub fn skip_to_passes_open_numbers<T>()
    ensures passed { (w : WindowView T) (number : ℕ) → IsLawful w
        → PassesInTurn w (skipped_count w number) (moved_on_by w (skipped_count w number)) }
    ensures ends { (w : WindowView T) (number : ℕ) → IsLawful w → number < modulus
        → offset_in w number < numbers_ahead
        → (number_ahead w.expected (skipped_count w number) ≡ number)
        ⊎ IsHeld w (number_ahead w.expected (skipped_count w number)) }
{}

/// How many numbers are skipped up to a number, said of each held number: not so many that the
/// given number or a held one passes, and so many that one of these two is reached, if the number
/// does not lie behind, whether or not something is held.
pub fn skip_to_stops_at_number_or_held<T>()
    ensures up_to_number { (w : WindowView T) (number : ℕ)
        → skipped_count w number ≤ offset_in w number }
    ensures up_to_held { (w : WindowView T) (number held : ℕ) → IsHeld w held
        → skipped_count w number ≤ offset_in w held }
    ensures reached { (w : WindowView T) (number : ℕ) → IsLawful w
        → offset_in w number < numbers_ahead
        → (skipped_count w number ≡ offset_in w number)
        ⊎ IsHeld w (number_ahead w.expected (skipped_count w number)) }
    ensures none { (w : WindowView T) (number : ℕ)
        → (offset_in w number ≡ 0) ⊎ (numbers_ahead ≤ offset_in w number)
        → skipped_count w number ≡ 0 }
{}

/// Where something is held, as many numbers are skipped up to a number as are declared lost.
pub fn skip_to_is_declare_to_where_something_is_held<T>()
    ensures { (w : WindowView T) (number : ℕ) → 0 < map.len w.held
        → skipped_count w number ≡ declared_count w number }
{}
