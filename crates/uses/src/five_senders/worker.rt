//! A thread that posts a list.
ghost use Rattle.std.specs.Prelude.{◌≡◌, [], ◌∷◌, ◌++◌, IfOk};
ghost use Rattle.mailbox.specs.Ports.{address, posted};
ghost use Rattle.uses.specs.FiveSenders.{HasPosted};

use mailbox::{ClosedPort, Full, Port};
use std::alloc::AllocError;
use std::snapshot::Snapshot;
use std::sync::Wait;
use std::thread;
use std::thread::{Promise, PromisedHandle, Threads};

/// The port and the list that a worker was started with.
#[derive(Drop)]
pub struct Posts<T>(pub Snapshot<Port<T>>, pub Snapshot<Vec<T>>);

impl<T> Promise<ClosedPort<T>> for Posts<T> {
    ghost kept_by = { λ posts closed. HasPosted posts.0.value posts.1.value.items closed };
}

pub type Worker<T> = PromisedHandle<ClosedPort<T>, Posts<T>>;

/// Starts a thread that posts the list and closes the port.
pub fn start<T, R>(rt: &R, port: Port<T>, list: Vec<T>) -> Result<Worker<T>, AllocError>
where
    T: Drop + Send + 'static,
    R: Threads + Wait + Copy + Send + 'static,
    ensures { IfOk result (λ worker.
        (worker.promise.0.value ≡ port) × (worker.promise.1.value ≡ list)) }
{
    let theirs = *rt;
    let posts = Posts(Snapshot::of(&port), Snapshot::of(&list));
    Ok(thread::spawn_with(rt, posts, move || { post_list(&theirs, port, list) })?)
}

// Posts all items in order, and closes the port.
fn post_list<T: Drop, R: Wait>(rt: &R, port: Port<T>, list: Vec<T>) -> ClosedPort<T>
    ensures { HasPosted port list.items result }
{
    let mut port = port;
    for item in list {
        post(rt, &mut port, item);
    }
    close(rt, port)
}

// Posts an item, and tries again until there is room.
fn post<T: Drop, R: Wait>(rt: &R, port: &mut Port<T>, item: T)
    ensures address { address port.new ≡ address port.old }
    ensures posted { posted port.new ≡ posted port.old ++ item ∷ [] }
{
    let mut item = item;
    for _ in rt.forever() {
        match port.post(rt, item) {
            Ok(()) => return,
            Err(Full(back)) => item = back,
        }
        thread::yield_now();
    }
    unreachable!()
}

// Closes a port, and tries again until there is room.
fn close<T: Drop, R: Wait>(rt: &R, port: Port<T>) -> ClosedPort<T>
    ensures { HasPosted port [] result }
{
    let mut port = port;
    for _ in rt.forever() {
        match port.close(rt) {
            Ok(closed) => return closed,
            Err(back) => port = back,
        }
        thread::yield_now();
    }
    unreachable!()
}
