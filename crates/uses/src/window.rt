//! Puts items that came in any order into the order of their numbers, by `reorder`'s window.
ghost use Rattle.std.specs.Prelude.{◌<◌, ◌≤◌, All, IfOk};
ghost use Rattle.uses.specs.Window.{IsRunOf};

use reorder::Window;
use std::alloc::{AllocError, Global};

/// Offers the items under their numbers, in the order in which they came, and then takes items
/// until the next one is missing. The numbers are 0 to 8191, as is `first`; `width` is 1 to 4096.
/// Of the items of one number the first one counts, and none counts that lies the width ahead of
/// `first` or more, or behind it. `Err` comes only where memory ran out.
pub fn in_order<T: Drop>(
    alloc: Global,
    first: u16,
    width: u16,
    offers: Vec<(u16, T)>,
) -> Result<Vec<T>, AllocError>
    requires first_in_range { first < 8192 }
    requires width_positive { 1 ≤ width }
    requires width_in_range { width ≤ 4096 }
    requires numbers_in_range { All (λ offer. offer.0 < 8192) offers.items }
    ensures run { IfOk result (λ items. IsRunOf first width offers.items items.items) }
{
    let mut window = Window::new(alloc, first, width)?;
    for (number, item) in offers {
        drop(window.offer(number, item));
    }
    let mut items = Vec::with_capacity(alloc, window.held())?;
    while let Some(item) = window.take_next() {
        items.push(item)?;
    }
    Ok(items)
}
