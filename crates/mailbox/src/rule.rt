//! The rule of the shared queue, and the kinds of step under it.
use crate::entry::Stamped;
use crate::view::View;
use crossbeam_queue::protocol::{Join, Lesson, Outcome, Protocol, Split};

/// What each sender posted is what the mouth took of it and then what the queue holds of it.
pub struct InOrder;

impl<T> Protocol<Stamped<T>, View<T>> for InOrder {
    ghost use Rattle.mailbox.specs.Inside.Delivers.{Delivers, newcomer};

    ghost holds = { Delivers };

    ghost first = { newcomer };
}

/// A port adds an entry, or finds the queue full.
pub struct Posts;

impl<T> Outcome<Stamped<T>, View<T>> for Posts {
    ghost use Rattle.mailbox.specs.Inside.Delivers.{Posted};

    ghost then = { Posted };
}

impl<T> Lesson<Stamped<T>, View<T>> for Posts {
    ghost fact = { λ v items. Unit {0} };
}

/// The mouth takes the oldest entry, or finds the queue empty.
pub struct Takes;

impl<T> Outcome<Stamped<T>, View<T>> for Takes {
    ghost use Rattle.mailbox.specs.Inside.Delivers.{Taken};

    ghost then = { Taken };
}

impl<T> Lesson<Stamped<T>, View<T>> for Takes {
    ghost use Rattle.mailbox.specs.Inside.Delivers.{Accounts};

    ghost fact = { Accounts };
}

/// A pass is split off the mouth's for a new port.
pub struct NewPort;

impl<T> Split<View<T>> for NewPort {
    ghost use Rattle.mailbox.specs.Inside.Delivers.{one_more, new_port};

    ghost left = { one_more };

    ghost right = { new_port };
}

/// The pass of a port is joined to the mouth's.
pub struct Joins;

impl<T> Join<View<T>> for Joins {
    ghost use Rattle.mailbox.specs.Inside.Delivers.{joined, spent};

    ghost both = { joined };

    ghost spent = { spent };
}
