//! The items of several senders in one order.
ghost use Rattle.std.specs.Prelude.{◌≡◌, length};

use std::alloc::{AllocError, Global};

/// The items in the order in which they were taken, and the sender of each, 0 to 4.
#[derive(Drop)]
pub struct Gathered<T> {
    pub order: Vec<u8>,
    pub items: Vec<T>,
    pub ghost paired: { length order.items ≡ length items.items },
}

impl<T: Drop> Gathered<T> {
    ghost use Rattle.std.specs.Prelude.{◌≡◌, [], ◌∷◌, ◌++◌, OnOk, OnErr};

    pub fn new(alloc: Global) -> Gathered<T>
        ensures { (result.order.items ≡ []) × (result.items.items ≡ []) }
    {
        Gathered {
            order: Vec::new(alloc),
            items: Vec::new(alloc),
        }
    }

    /// Adds an item.
    pub fn add(&mut self, from: u8, item: T) -> Result<(), AllocError>
        ensures order { OnOk result (self.new.order.items ≡ self.old.order.items ++ from ∷ []) }
        ensures items { OnOk result (self.new.items.items ≡ self.old.items.items ++ item ∷ []) }
        ensures err { OnErr result ((self.new.order.items ≡ self.old.order.items)
            × (self.new.items.items ≡ self.old.items.items)) }
    {
        let Gathered { order, items } = self;
        order.reserve(1)?;
        items.reserve(1)?;
        order.push_reserved(from);
        items.push_reserved(item);
        Ok(())
    }
}
