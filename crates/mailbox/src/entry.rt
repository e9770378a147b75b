//! What lies in the queue.
ghost use Rattle.std.specs.Prelude.{◌<◌};

/// An item, or the end mark of its sender.
#[derive(Drop)]
pub enum Entry<T> {
    Item(T),
    End,
}

/// An entry with the number of its sender.
#[derive(Drop)]
pub struct Stamped<T> {
    pub from: u8,
    pub entry: Entry<T>,
    pub ghost below: { from < 5 },
}
