//! Taking what five senders post.
ghost use Rattle.std.specs.Prelude.{◌≡◌, ◌<◌, ℕ, true, IfSome};
ghost use Rattle.mailbox.specs.Mouths.{places, taken, ended};
ghost use Rattle.uses.specs.FiveSenders.{Adds, Collects};

use super::gathered::Gathered;
use mailbox::{Mouth, Taken};
use std::alloc::Global;
use std::sync::Wait;
use std::thread;

/// Takes until the end marks of all five senders were taken. Once memory has run out it drops what
/// it takes, and gives nothing.
pub fn take_all<T: Drop, R: Wait>(
    rt: &R,
    alloc: Global,
    mouth: Mouth<T>,
) -> (Mouth<T>, Option<Gathered<T>>)
    ensures places { places result.0 ≡ places mouth }
    ensures ended { (s : ℕ) → s < 5 → ended result.0 s ≡ true }
    ensures gathered { IfSome result.1 (Collects (taken mouth) (taken result.0)) }
{
    let mut mouth = mouth;
    let mut gathered = Some(Gathered::new(alloc));
    for _ in rt.forever() {
        if mouth.all_ended() {
            break;
        }
        match mouth.next(rt) {
            Taken::Item { from, item } => gathered = with(gathered, from, item),
            Taken::End { .. } => {}
            Taken::Empty => thread::yield_now(),
        }
    }
    (mouth, gathered)
}

// With one item more, or nothing where there was nothing or memory ran out.
fn with<T: Drop>(gathered: Option<Gathered<T>>, from: u8, item: T) -> Option<Gathered<T>>
    ensures { IfSome result (λ new. (old : _) × (gathered ≡ Some old) × Adds old from item new) }
{
    let mut gathered = gathered?;
    gathered.add(from, item).ok()?;
    Some(gathered)
}

/// Takes until so many end marks were taken, and drops what it takes.
pub fn drop_all<T: Drop, R: Wait>(rt: &R, mouth: Mouth<T>, senders: usize) {
    let mut mouth = mouth;
    let mut open = senders;
    for _ in rt.forever() {
        if open == 0 {
            return;
        }
        match mouth.next(rt) {
            Taken::Item { .. } => {}
            Taken::End { .. } => open -= 1,
            Taken::Empty => thread::yield_now(),
        }
    }
    unreachable!()
}
