//! A receiver for C: `include/segrx.h` declares the functions and says how to call them.
//!
//! Each export tests its pointers and lengths, and makes one call of [`c_receiver`], whose clauses
//! it states again, for the memory behind the pointers. So the proofs of exports are by hand, and
//! alike: what lies behind a pointer is lent for the call and comes back. What a C program has to
//! ensure is in each `requires`: that what its pointers point to is there and its own, and that a
//! handle is one that [`segrx_receiver_new`] gave and [`segrx_receiver_free`] didn't take.
//!
//! In a clause [`Opaque`] is what a handle is to C; `was` is what lay behind the pointers, and
//! `after` what lies there at the return. Of a call that is refused both are the same.
//!
//! [`segrx_receiver_lend_frame`] leaves the receiver lent: where its bytes stand they can be read
//! up to the end of a lifetime that is the C program's to end, and with that end the receiver is
//! there again for the next call (`loan_ends` of `proofs/Loans.antt`).
#![tactic(auto)]

ghost use Rattle.std.specs.Prelude.{◌≡◌, ℕ, List, [], ◌∷◌, Option, None, IsSome, nat_lt};
ghost use denote.Builtin.{u8 as byte};
ghost use denote.RawPtr.{Ptr, RawPtr, Testable};
ghost use types.Logic.{sem};
ghost use Rattle.c_receiver.specs.declared.held.HeldReceiver.{HeldReceiver};
ghost use Rattle.c_receiver.specs.declared.plain.PlainFlow.{PlainFlow};
ghost use Rattle.c_receiver.specs.declared.plain.PlainRow.{PlainRow};
ghost use Rattle.c_receiver.specs.declared.plain.PlainCounts.{PlainCounts};
ghost use Rattle.c_receiver.specs.declared.plain.PlainFrame.{PlainFrame};
ghost use Rattle.c_receiver.specs.declared.plain.PlainRequest.{PlainRequest};
ghost use Rattle.c_receiver.specs.declared.plain.PlainWaiting.{PlainWaiting};
ghost use Rattle.c_receiver.specs.contracts.plain.PlainFlow as flow_type;
ghost use Rattle.c_receiver.specs.contracts.plain.PlainRow as row_type;
ghost use Rattle.c_receiver.specs.contracts.plain.PlainCounts as counts_type;
ghost use Rattle.c_receiver.specs.contracts.plain.PlainFrame as frame_type;
ghost use Rattle.c_receiver.specs.contracts.plain.PlainRequest as request_type;
ghost use Rattle.c_receiver.specs.contracts.plain.PlainWaiting as waiting_type;
ghost use Rattle.c_receiver.specs.Held.{IsInUse, TakesGrant, TakesBurst, Decides, GoesOn, Restarts};
ghost use Rattle.c_receiver.specs.Held.{Closes, Counts, GivesFrame, GivesRequest};
ghost use Rattle.c_receiver.specs.Held.{LendsFrame, waiting_in};
ghost use Rattle.segrx_c.specs.Handle.{handle_at, value_at, row_at};
ghost use Rattle.segrx_c.specs.Loan.{perhaps_lent_at};
ghost use Rattle.segrx_c.specs.Made.{Gives, made_at};
ghost use Rattle.segrx_c.specs.Answers.{Numbered, Unless, refused, of_free};

mod calls;
mod handed;

use c_receiver::{
    HeldReceiver, PlainCounts, PlainFlow, PlainFrame, PlainRequest, PlainRow, PlainWaiting,
};
use handed::Handed;
use std::alloc::Global;
use std::slice;

/// The number of `Status::Null`.
const NULL_GIVEN: u32 = 1;

/// The number of `Status::LengthRange`.
const TOO_MANY: u32 = 17;

/// The most bytes that a burst may have.
const MOST_BYTES: usize = 65535;

/// The most bytes that the room for a frame may have.
const MOST_ROOM: usize = 2147483647;

/// The most flows of a setup.
const MOST_FLOWS: usize = 16384;

/// The most rows of a setup.
const MOST_ROWS: usize = 262144;

/// What a handle points to, of which C sees nothing: it is a [`HeldReceiver`].
#[repr(C)]
#[derive(Drop)]
pub struct Opaque {
    opaque: u8,
}

/// Makes a receiver of so many channels, for these flows and rows, by the loss rule of this number.
/// Its handle is put into the caller's variable, or NULL where none is made.
#[unsafe(no_mangle)]
pub unsafe extern "C" fn segrx_receiver_new(
    alloc: Global,
    channels: u32,
    flows: *const PlainFlow,
    flow_count: usize,
    rows: *const PlainRow,
    row_count: usize,
    rule: u32,
    handle: *mut *mut Opaque,
) -> u32
    ghost was: { List PlainFlow × List PlainRow × Ptr }
    requires flows { Testable flows }
    requires rows { Testable rows }
    requires handle { Testable handle }
    requires* memory { sem 𝓛 (row_at flow_type.the_row 16384 flows flow_count was.0)
        ∗ sem 𝓛 (row_at row_type.the_row 262144 rows row_count was.1)
        ∗ sem 𝓛 (value_at RawPtr handle was.2) }
    ensures* memory { ∃ₛ (λ (after : Ptr × Option HeldReceiver).
        sem 𝓛 (row_at flow_type.the_row 16384 flows flow_count was.0)
        ∗ sem 𝓛 (row_at row_type.the_row 262144 rows row_count was.1)
        ∗ sem 𝓛 (value_at RawPtr handle after.0)
        ∗ sem 𝓛 (made_at after.0 after.1)
        ∗ ⌜ Unless (refused (handle ∷ flows ∷ rows ∷ [])
        (nat_lt 16384 flow_count ∷ nat_lt 262144 row_count ∷ [])) result (after.1 ≡ None)
        (Gives channels was.0 was.1 rule result after.1) ⌝) }
{
    if handle.is_null() {
        return NULL_GIVEN;
    }
    *handle = std::ptr::null_mut();
    if flows.is_null() {
        return NULL_GIVEN;
    }
    if rows.is_null() {
        return NULL_GIVEN;
    }
    if flow_count > MOST_FLOWS {
        return TOO_MANY;
    }
    if row_count > MOST_ROWS {
        return TOO_MANY;
    }
    let made = calls::make(
        alloc,
        channels,
        slice::from_raw_parts(flows, flow_count),
        slice::from_raw_parts(rows, row_count),
        rule,
    );
    let Handed {
        number,
        at,
        alloc: _,
    } = made;
    *handle = at as *mut Opaque;
    number
}

/// Takes a grant that was sent on this channel.
#[unsafe(no_mangle)]
pub unsafe extern "C" fn segrx_receiver_grant(
    handle: *mut Opaque,
    channel: usize,
    number: u32,
    sid: u16,
    bytes: u32,
) -> u32
    ghost was: { HeldReceiver }
    requires* memory { sem 𝓛 (handle_at handle was) ∗ ⌜ IsInUse was ⌝ }
    ensures* memory { ∃ₛ (λ (after : HeldReceiver). sem 𝓛 (handle_at handle after)
        ∗ ⌜ Unless (refused (handle ∷ []) []) result (after ≡ was) (Numbered (λ answer.
        TakesGrant was channel number sid bytes answer after) result
        × IsInUse after) ⌝) }
{
    if handle.is_null() {
        return NULL_GIVEN;
    }
    let held = handle as *mut HeldReceiver;
    calls::grant(&mut *held, channel, number, sid, bytes)
}

/// Takes a burst that came on this channel. Its bytes are copied.
#[unsafe(no_mangle)]
pub unsafe extern "C" fn segrx_receiver_burst(
    handle: *mut Opaque,
    channel: usize,
    grant: u32,
    hcs_ok: bool,
    bytes: *const u8,
    count: usize,
) -> u32
    ghost was: { HeldReceiver × List ℕ }
    requires testable { Testable bytes }
    requires* memory { sem 𝓛 (handle_at handle was.0)
        ∗ sem 𝓛 (row_at byte 65535 bytes count was.1) ∗ ⌜ IsInUse was.0 ⌝ }
    ensures* memory { ∃ₛ (λ (after : HeldReceiver). sem 𝓛 (handle_at handle after)
        ∗ sem 𝓛 (row_at byte 65535 bytes count was.1)
        ∗ ⌜ Unless (refused (handle ∷ bytes ∷ []) (nat_lt 65535 count ∷ [])) result
        (after ≡ was.0) (Numbered (λ answer.
        TakesBurst was.0 channel grant hcs_ok was.1 answer after) result
        × IsInUse after) ⌝) }
{
    if handle.is_null() {
        return NULL_GIVEN;
    }
    if bytes.is_null() {
        return NULL_GIVEN;
    }
    if count > MOST_BYTES {
        return TOO_MANY;
    }
    let held = handle as *mut HeldReceiver;
    calls::burst(
        &mut *held,
        channel,
        grant,
        hcs_ok,
        slice::from_raw_parts(bytes, count),
    )
}

/// Takes a burst, as [`segrx_receiver_burst`] does, and tells how much waits then.
#[unsafe(no_mangle)]
pub unsafe extern "C" fn segrx_receiver_burst_waiting(
    handle: *mut Opaque,
    channel: usize,
    grant: u32,
    hcs_ok: bool,
    bytes: *const u8,
    count: usize,
    waiting: *mut PlainWaiting,
) -> u32
    ghost was: { HeldReceiver × List ℕ × PlainWaiting }
    requires bytes { Testable bytes }
    requires waiting { Testable waiting }
    requires* memory { sem 𝓛 (handle_at handle was.0)
        ∗ sem 𝓛 (row_at byte 65535 bytes count was.1)
        ∗ sem 𝓛 (value_at waiting_type.the_row waiting was.2) ∗ ⌜ IsInUse was.0 ⌝ }
    ensures* memory { ∃ₛ (λ (after : HeldReceiver × PlainWaiting).
        sem 𝓛 (handle_at handle after.0)
        ∗ sem 𝓛 (row_at byte 65535 bytes count was.1)
        ∗ sem 𝓛 (value_at waiting_type.the_row waiting after.1)
        ∗ ⌜ Unless (refused (handle ∷ bytes ∷ waiting ∷ []) (nat_lt 65535 count ∷ [])) result
        (after ≡ (was.0, was.2)) (Numbered (λ answer.
        TakesBurst was.0 channel grant hcs_ok was.1 answer after.0
        × (after.1 ≡ waiting_in after.0.queue)) result
        × IsInUse after.0) ⌝) }
{
    if handle.is_null() {
        return NULL_GIVEN;
    }
    if bytes.is_null() {
        return NULL_GIVEN;
    }
    if waiting.is_null() {
        return NULL_GIVEN;
    }
    if count > MOST_BYTES {
        return TOO_MANY;
    }
    let held = handle as *mut HeldReceiver;
    calls::burst_waiting(
        &mut *held,
        channel,
        grant,
        hcs_ok,
        slice::from_raw_parts(bytes, count),
        &mut *waiting,
    )
}

/// Takes the decision that segments of a flow are lost: of this kind, up to this number.
#[unsafe(no_mangle)]
pub unsafe extern "C" fn segrx_receiver_decide(
    handle: *mut Opaque,
    flow: usize,
    kind: u32,
    number: u16,
) -> u32
    ghost was: { HeldReceiver }
    requires* memory { sem 𝓛 (handle_at handle was) ∗ ⌜ IsInUse was ⌝ }
    ensures* memory { ∃ₛ (λ (after : HeldReceiver). sem 𝓛 (handle_at handle after)
        ∗ ⌜ Unless (refused (handle ∷ []) []) result (after ≡ was) (Numbered (λ answer.
        Decides was flow kind number answer after) result
        × IsInUse after) ⌝) }
{
    if handle.is_null() {
        return NULL_GIVEN;
    }
    let held = handle as *mut HeldReceiver;
    calls::decide(&mut *held, flow, kind, number)
}

/// Does what a failed allocation left to be done of a flow.
#[unsafe(no_mangle)]
pub unsafe extern "C" fn segrx_receiver_go_on(handle: *mut Opaque, flow: usize) -> u32
    ghost was: { HeldReceiver }
    requires* memory { sem 𝓛 (handle_at handle was) ∗ ⌜ IsInUse was ⌝ }
    ensures* memory { ∃ₛ (λ (after : HeldReceiver). sem 𝓛 (handle_at handle after)
        ∗ ⌜ Unless (refused (handle ∷ []) []) result (after ≡ was) (Numbered (λ answer.
        GoesOn was flow answer after) result
        × IsInUse after) ⌝) }
{
    if handle.is_null() {
        return NULL_GIVEN;
    }
    let held = handle as *mut HeldReceiver;
    calls::go_on(&mut *held, flow)
}

/// Tells the first frame that waits. Where the room is large enough its bytes are put there, and it
/// waits no more.
#[unsafe(no_mangle)]
pub unsafe extern "C" fn segrx_receiver_next_frame(
    handle: *mut Opaque,
    room: *mut u8,
    capacity: usize,
    frame: *mut PlainFrame,
) -> u32
    ghost was: { HeldReceiver × List ℕ × PlainFrame }
    requires room { Testable room }
    requires frame { Testable frame }
    requires* memory { sem 𝓛 (handle_at handle was.0)
        ∗ sem 𝓛 (row_at byte 2147483647 room capacity was.1)
        ∗ sem 𝓛 (value_at frame_type.the_row frame was.2) ∗ ⌜ IsInUse was.0 ⌝ }
    ensures* memory { ∃ₛ (λ (after : HeldReceiver × List ℕ × PlainFrame).
        sem 𝓛 (handle_at handle after.0)
        ∗ sem 𝓛 (row_at byte 2147483647 room capacity after.1)
        ∗ sem 𝓛 (value_at frame_type.the_row frame after.2)
        ∗ ⌜ Unless (refused (handle ∷ room ∷ frame ∷ []) (nat_lt 2147483647 capacity ∷ []))
        result (after ≡ was) (Numbered (λ answer.
        GivesFrame was.0 was.1 was.2 answer after.0 after.1 after.2) result
        × IsInUse after.0) ⌝) }
{
    if handle.is_null() {
        return NULL_GIVEN;
    }
    if room.is_null() {
        return NULL_GIVEN;
    }
    if frame.is_null() {
        return NULL_GIVEN;
    }
    if capacity > MOST_ROOM {
        return TOO_MANY;
    }
    let held = handle as *mut HeldReceiver;
    calls::next_frame(
        &mut *held,
        slice::from_raw_parts_mut(room, capacity),
        &mut *frame,
    )
}

/// Lends the first frame that waits, and tells it and where its bytes are, which stay the
/// receiver's.
#[unsafe(no_mangle)]
pub unsafe extern "C" fn segrx_receiver_lend_frame(
    handle: *mut Opaque,
    bytes: *mut *const u8,
    frame: *mut PlainFrame,
) -> u32
    ghost was: { HeldReceiver × Ptr × PlainFrame }
    requires bytes { Testable bytes }
    requires frame { Testable frame }
    requires* memory { sem 𝓛 (handle_at handle was.0)
        ∗ sem 𝓛 (value_at RawPtr bytes was.1)
        ∗ sem 𝓛 (value_at frame_type.the_row frame was.2) ∗ ⌜ IsInUse was.0 ⌝ }
    ensures* memory { ∃ₛ (λ (after : HeldReceiver × Ptr × PlainFrame × Option ℕ).
        sem 𝓛 (perhaps_lent_at after.3 handle after.1 after.0)
        ∗ sem 𝓛 (value_at RawPtr bytes after.1)
        ∗ sem 𝓛 (value_at frame_type.the_row frame after.2)
        ∗ ⌜ Unless (refused (handle ∷ bytes ∷ frame ∷ []) []) result
        (after ≡ (was.0, was.1, was.2, None)) (Numbered (λ answer.
        LendsFrame was.0 was.2 answer after.0 after.2) result
        × IsInUse after.0 × IsSome after.3) ⌝) }
{
    if handle.is_null() {
        return NULL_GIVEN;
    }
    if bytes.is_null() {
        return NULL_GIVEN;
    }
    if frame.is_null() {
        return NULL_GIVEN;
    }
    let held = handle as *mut HeldReceiver;
    let number = calls::lend_frame(&mut *held, &mut *frame);
    *bytes = calls::lent_bytes(&*held).as_ptr();
    number
}

/// Tells the first request that waits, and it waits no more.
#[unsafe(no_mangle)]
pub unsafe extern "C" fn segrx_receiver_next_request(
    handle: *mut Opaque,
    request: *mut PlainRequest,
) -> u32
    ghost was: { HeldReceiver × PlainRequest }
    requires testable { Testable request }
    requires* memory { sem 𝓛 (handle_at handle was.0)
        ∗ sem 𝓛 (value_at request_type.the_row request was.1) ∗ ⌜ IsInUse was.0 ⌝ }
    ensures* memory { ∃ₛ (λ (after : HeldReceiver × PlainRequest). sem 𝓛 (handle_at handle after.0)
        ∗ sem 𝓛 (value_at request_type.the_row request after.1)
        ∗ ⌜ Unless (refused (handle ∷ request ∷ []) []) result (after ≡ was) (Numbered (λ answer.
        GivesRequest was.0 was.1 answer after.0 after.1) result
        × IsInUse after.0) ⌝) }
{
    if handle.is_null() {
        return NULL_GIVEN;
    }
    if request.is_null() {
        return NULL_GIVEN;
    }
    let held = handle as *mut HeldReceiver;
    calls::next_request(&mut *held, &mut *request)
}

/// Tells what was counted of a flow.
#[unsafe(no_mangle)]
pub unsafe extern "C" fn segrx_receiver_counts(
    handle: *mut Opaque,
    flow: usize,
    counts: *mut PlainCounts,
) -> u32
    ghost was: { HeldReceiver × PlainCounts }
    requires testable { Testable counts }
    requires* memory { sem 𝓛 (handle_at handle was.0)
        ∗ sem 𝓛 (value_at counts_type.the_row counts was.1) ∗ ⌜ IsInUse was.0 ⌝ }
    ensures* memory { ∃ₛ (λ (after : HeldReceiver × PlainCounts). sem 𝓛 (handle_at handle after.0)
        ∗ sem 𝓛 (value_at counts_type.the_row counts after.1)
        ∗ ⌜ Unless (refused (handle ∷ counts ∷ []) []) result (after ≡ was) (Numbered (λ answer.
        Counts was.0 flow was.1 answer after.1 × (after.0 ≡ was.0)) result
        × IsInUse after.0) ⌝) }
{
    if handle.is_null() {
        return NULL_GIVEN;
    }
    if counts.is_null() {
        return NULL_GIVEN;
    }
    let held = handle as *mut HeldReceiver;
    calls::counts(&mut *held, flow, &mut *counts)
}

/// Closes a flow, which then begins anew at this number, and tells what was counted of it.
#[unsafe(no_mangle)]
pub unsafe extern "C" fn segrx_receiver_restart(
    handle: *mut Opaque,
    flow: usize,
    first: u16,
    counts: *mut PlainCounts,
) -> u32
    ghost was: { HeldReceiver × PlainCounts }
    requires testable { Testable counts }
    requires* memory { sem 𝓛 (handle_at handle was.0)
        ∗ sem 𝓛 (value_at counts_type.the_row counts was.1) ∗ ⌜ IsInUse was.0 ⌝ }
    ensures* memory { ∃ₛ (λ (after : HeldReceiver × PlainCounts). sem 𝓛 (handle_at handle after.0)
        ∗ sem 𝓛 (value_at counts_type.the_row counts after.1)
        ∗ ⌜ Unless (refused (handle ∷ counts ∷ []) []) result (after ≡ was) (Numbered (λ answer.
        Restarts was.0 flow first was.1 answer after.0 after.1) result
        × IsInUse after.0) ⌝) }
{
    if handle.is_null() {
        return NULL_GIVEN;
    }
    if counts.is_null() {
        return NULL_GIVEN;
    }
    let held = handle as *mut HeldReceiver;
    calls::restart(&mut *held, flow, first, &mut *counts)
}

/// Closes all flows, and gives what each has left to give.
#[unsafe(no_mangle)]
pub unsafe extern "C" fn segrx_receiver_close(handle: *mut Opaque) -> u32
    ghost was: { HeldReceiver }
    requires* memory { sem 𝓛 (handle_at handle was) ∗ ⌜ IsInUse was ⌝ }
    ensures* memory { ∃ₛ (λ (after : HeldReceiver). sem 𝓛 (handle_at handle after)
        ∗ ⌜ Unless (refused (handle ∷ []) []) result (after ≡ was) (Numbered (λ answer.
        Closes was answer after) result
        × IsInUse after) ⌝) }
{
    if handle.is_null() {
        return NULL_GIVEN;
    }
    let held = handle as *mut HeldReceiver;
    calls::close(&mut *held)
}

/// Lets a receiver go, with all that waits. It is the last call with its handle.
#[unsafe(no_mangle)]
pub unsafe extern "C" fn segrx_receiver_free(alloc: Global, handle: *mut Opaque) -> u32
    ghost was: { HeldReceiver }
    requires* memory { sem 𝓛 (handle_at handle was) }
    ensures told { result ≡ of_free handle }
{
    if handle.is_null() {
        return NULL_GIVEN;
    }
    let at = handle as *mut HeldReceiver;
    calls::free(Handed {
        number: 0,
        at,
        alloc,
    })
}
