//! A thread that waits for its work, and is handed it once all threads were started. Until then
//! the work is the caller's own.
ghost use Rattle.std.specs.Prelude.{◌≡◌, ◌∷◌, ◌++◌, [], IfOk, Ok};
ghost use Rattle.rtrb.specs.Ring.{received, SameConsumer};
ghost use Rattle.workers.specs.Inside.Handover.{HasHeard, IsIdle, IsBusy};

use crate::signals::Signals;
use crate::waiting::Waiting;
use rtrb::{Consumer, Producer, RingBuffer};
use std::alloc::{AllocError, Global};
use std::snapshot::Snapshot;
use std::sync::Wait;
use std::thread;
use std::thread::{Promise, PromisedHandle, Threads};

/// Work for a thread of its own.
pub trait Job<T> {
    // It came to this.
    ghost did: { Self → T → Type 0 };

    /// Does it.
    fn serve<R: Wait>(self, alloc: Global, rt: &R, signals: &Signals) -> T
        ensures { did self result };
}

/// What a thread is told, once.
#[derive(Drop)]
pub enum Word<W> {
    /// All threads were started. Here is its work.
    Begin(W),
    /// One could not be started.
    Return,
}

/// The end by which a thread was told, and what its work came to, if it was handed any.
#[derive(Drop)]
pub struct Heard<W, T> {
    pub words: Consumer<Word<W>>,
    pub done: Option<T>,
}

/// The end by which a thread is told.
#[derive(Drop)]
pub struct HearingPromise<W>(pub Snapshot<Consumer<Word<W>>>);

impl<W: Job<T>, T> Promise<Heard<W, T>> for HearingPromise<W> {
    ghost kept_by = { λ promise heard. HasHeard W.did promise.0.value heard };
}

/// A thread that was started and waits for its work.
#[derive(Drop)]
pub struct IdleWorker<W: Job<T>, T> {
    pub words: Producer<Word<W>>,
    pub thread: PromisedHandle<Heard<W, T>, HearingPromise<W>>,
}

/// A thread that was handed its work.
#[derive(Drop)]
pub struct BusyWorker<W: Job<T>, T> {
    pub words: Producer<Word<W>>,
    pub thread: PromisedHandle<Heard<W, T>, HearingPromise<W>>,
    /// What it was handed.
    pub given: Snapshot<W>,
}

/// Starts a thread for work that is handed over later. `AllocError`: there is no memory for it, or
/// it can't be started.
pub fn start_worker<W, T, R>(
    alloc: Global,
    rt: &R,
    signals: &Signals,
) -> Result<IdleWorker<W, T>, AllocError>
where
    W: Job<T> + Drop + Send + 'static,
    T: Drop + Send + 'static,
    R: Threads + Wait + Copy + Send + 'static,
    ensures { IfOk result IsIdle }
{
    let signals = signals.share()?;
    let (words, theirs) = RingBuffer::new(alloc, 1)?;
    let promise = HearingPromise(Snapshot::of(&theirs));
    let handle = *rt;
    let thread = thread::spawn_with(rt, promise, move || {
        serve_when_told(alloc, &handle, &signals, theirs)
    })?;
    Ok(IdleWorker { words, thread })
}

/// Waits until it is told, and then does its work, or nothing.
fn serve_when_told<W: Job<T> + Drop, T: Drop, R: Wait>(
    alloc: Global,
    rt: &R,
    signals: &Signals,
    words: Consumer<Word<W>>,
) -> Heard<W, T>
    ensures { HasHeard W.did words result }
{
    let mut words = words;
    let word = next_word(rt, signals, &mut words);
    let done = match word {
        Word::Begin(work) => Some(work.serve(alloc, rt, signals)),
        Word::Return => None,
    };
    Heard { words, done }
}

/// Waits until it is told.
fn next_word<W, R: Wait>(rt: &R, signals: &Signals, words: &mut Consumer<Word<W>>) -> Word<W>
    ensures same { SameConsumer words.old words.new }
    ensures one { received words.new ≡ received words.old ++ result ∷ [] }
{
    let mut waiting = Waiting::on(signals.told());
    for _ in rt.forever() {
        match words.pop() {
            Ok(word) => return word,
            Err(_) => waiting.pause(rt),
        }
    }
    unreachable!()
}

impl<W: Job<T>, T> IdleWorker<W, T> {
    /// Hands the work over. The thread sleeps until it is told that there is something.
    pub fn begin(self, work: W) -> BusyWorker<W, T>
        requires { IsIdle self }
        ensures given { result.given.value ≡ work }
        ensures busy { IsBusy result }
    {
        let IdleWorker { mut words, thread } = self;
        let given = Snapshot::of(&work);
        words.push_reserved(Word::Begin(work));
        BusyWorker {
            words,
            thread,
            given,
        }
    }
}

impl<W: Job<T> + Drop, T: Drop> BusyWorker<W, T> {
    /// Waits until the work is done.
    pub fn join<R: Threads>(self, rt: &R) -> T
        requires { IsBusy self }
        ensures { W.did self.given.value result }
    {
        let BusyWorker {
            mut words,
            thread,
            given: _,
        } = self;
        let Heard {
            words: mut theirs,
            done,
        } = thread.join(rt);
        theirs.slots_beside(&mut words);
        match done {
            Some(done) => done,
            None => unreachable!(),
        }
    }
}

/// Threads that wait for their work.
pub trait Workers {
    /// Tells them that they get none, and waits until all have returned.
    fn dismiss<R: Threads>(self, rt: &R, signals: &Signals);
}

impl<W: Job<T> + Drop, T: Drop> Workers for IdleWorker<W, T> {
    fn dismiss<R: Threads>(self, rt: &R, signals: &Signals) {
        let IdleWorker { mut words, thread } = self;
        let _ = words.push(Word::Return);
        signals.told().notify_all();
        thread.join(rt);
    }
}

impl<A: Workers, B: Workers> Workers for (A, B) {
    fn dismiss<R: Threads>(self, rt: &R, signals: &Signals) {
        self.0.dismiss(rt, signals);
        self.1.dismiss(rt, signals);
    }
}

/// Both, if all their threads were started. Where one wasn't, the others are dismissed.
pub fn both_started<A: Workers + Drop, B: Workers + Drop, R: Threads>(
    rt: &R,
    signals: &Signals,
    one: Result<A, AllocError>,
    other: Result<B, AllocError>,
) -> Result<(A, B), AllocError>
    ensures { IfOk result (λ pair. (one ≡ Ok pair.0) × (other ≡ Ok pair.1)) }
{
    match (one, other) {
        (Ok(one), Ok(other)) => Ok((one, other)),
        (one, other) => {
            dismiss_started(rt, signals, one);
            dismiss_started(rt, signals, other);
            Err(AllocError)
        }
    }
}

/// Dismisses threads that were started.
fn dismiss_started<A: Workers, R: Threads>(
    rt: &R,
    signals: &Signals,
    started: Result<A, AllocError>,
) {
    if let Ok(workers) = started {
        workers.dismiss(rt, signals);
    }
}
