//! What follows from the definitions alone.
ghost use Rattle.std.specs.Prelude.{◌≡◌, ◌<◌, ◌≤◌, ◌-◌, ◌++◌, ℕ, List, Option, All, AllPairs};
ghost use Rattle.std.specs.Prelude.{IsPermutation, length};
ghost use Rattle.reorder.specs.Limits.{modulus};
ghost use Rattle.capture_rules.specs.declared.arrival.Arrival.{Arrival};
ghost use Rattle.capture_rules.specs.declared.arrival.HandedOn.{HandedOn};
ghost use Rattle.capture_rules.specs.declared.held_time.HeldTime.{HeldTime};
ghost use Rattle.capture_rules.specs.declared.arrival.Waiting.{Waiting};
ghost use Rattle.capture_rules.specs.Order.{OrderView, nothing_waits, most_waiting, IsNext};
ghost use Rattle.capture_rules.specs.Order.{HandsOnAll, Orders, arrivals_of, bursts_of};
ghost use Rattle.capture_rules.specs.Turns.{CameNearlyInOrder, FewWait, InTurn};
ghost use Rattle.capture_rules.specs.Begin.{IsFirstNumber};
ghost use Rattle.capture_rules.specs.Held.{IsSkip};

/// Of bursts that came one after another one list alone is handed on, and the same go on waiting.
pub fn bursts_are_handed_on_in_one_way<T>()
    ensures next { (waiting rest rest' : List (Waiting T)) (next next' : HandedOn T)
        → IsNext waiting next rest → IsNext waiting next' rest' → (next ≡ next') × (rest ≡ rest') }
    ensures order { (order left left' : OrderView T) (came : List (Arrival T))
        → (handed handed' : List (HandedOn T)) → Orders order came handed left
        → Orders order came handed' left' → (handed ≡ handed') × (left ≡ left') }
    ensures end { (waiting : List (Waiting T)) (handed handed' : List (HandedOn T))
        → HandsOnAll waiting handed → HandsOnAll waiting handed' → handed ≡ handed' }
{}

/// What is handed on and what goes on waiting are together the bursts that waited and that came, in
/// another order; and in the end all are handed on that wait.
pub fn no_burst_is_lost_or_doubled<T>()
    ensures order { (order left : OrderView T) (came : List (Arrival T))
        → (handed : List (HandedOn T)) → Orders order came handed left
        → IsPermutation (bursts_of order.waiting ++ came)
        (arrivals_of handed ++ bursts_of left.waiting) }
    ensures end { (waiting : List (Waiting T)) (handed : List (HandedOn T))
        → HandsOnAll waiting handed → IsPermutation (bursts_of waiting) (arrivals_of handed) }
{}

/// However times stand still, go back or are set back: what goes on waiting came within `reorder`,
/// by the flow's clock, and is no more than 2,048 bursts.
pub fn what_waits_came_lately<T>()
    ensures lately { (reorder : ℕ) (left : OrderView T) (came : List (Arrival T))
        → (handed : List (HandedOn T)) → Orders (nothing_waits reorder) came handed left
        → All (λ one. left.clock - one.came ≤ reorder) left.waiting }
    ensures most { (reorder : ℕ) (left : OrderView T) (came : List (Arrival T))
        → (handed : List (HandedOn T)) → Orders (nothing_waits reorder) came handed left
        → length left.waiting ≤ most_waiting }
{}

/// Where the flow's clock isn't set back, the bursts of each channel came in the order of their
/// numbers but for such as came within `reorder` of one another by that clock, those stand within
/// half of all numbers, and fewer than 2,048 waited: there the bursts of each channel leave in the
/// order of their numbers.
pub fn each_channel_leaves_in_order<T>()
    ensures { (reorder : ℕ) (place : Arrival T → ℕ) (came : List (Arrival T)) (left : OrderView T)
        → (handed last : List (HandedOn T)) → CameNearlyInOrder reorder place came
        → FewWait (nothing_waits reorder) came
        → Orders (nothing_waits reorder) came handed left → HandsOnAll left.waiting last
        → AllPairs (InTurn reorder place) (arrivals_of handed ++ arrivals_of last) }
{}

/// A beginning has one first number.
pub fn beginnings_have_one_first_number<T>()
    ensures { (kept : List (HandedOn T)) (number number' : ℕ)
        → IsFirstNumber kept number → IsFirstNumber kept number' → number ≡ number' }
{}

/// A flow that holds some numbers skips to one number at most.
pub fn flows_skip_to_one_number()
    ensures { (wait now expected : ℕ) (held : List HeldTime) (skip skip' : Option ℕ)
        → expected < modulus
        → IsSkip wait now expected held skip → IsSkip wait now expected held skip'
        → skip ≡ skip' }
{}
