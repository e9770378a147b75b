//! The calls of a receiver, with numbers for what they answer.
ghost use Rattle.std.specs.Prelude.{◌≡◌, Some};
ghost use Rattle.c_receiver.specs.Held.{IsInUse, TakesGrant, TakesBurst, Decides, GoesOn, Restarts};
ghost use Rattle.c_receiver.specs.Held.{Closes, Counts, GivesFrame, GivesRequest};
ghost use Rattle.c_receiver.specs.Held.{LendsFrame, bytes_lent, waiting_in};
ghost use Rattle.segrx_c.specs.Answers.{Numbered};
ghost use Rattle.segrx_c.specs.Made.{Gives};
ghost use Rattle.c_receiver.specs.declared.held.HeldReceiver.{HeldReceiver};

use crate::handed::Handed;
use c_receiver::{
    HeldReceiver, MakeFault, PlainCounts, PlainFlow, PlainFrame, PlainRequest, PlainRow,
    PlainWaiting, discard,
};
use std::alloc::Global;

pub fn grant(held: &mut HeldReceiver, channel: usize, number: u32, sid: u16, bytes: u32) -> u32
    requires { IsInUse held.old }
    ensures does { Numbered (λ answer. TakesGrant held.old channel number sid bytes answer held.new)
        result }
    ensures in_use { IsInUse held.new }
{
    held.grant(channel, number, sid, bytes).number()
}

pub fn burst(
    held: &mut HeldReceiver,
    channel: usize,
    number: u32,
    hcs_ok: bool,
    bytes: &[u8],
) -> u32
    requires { IsInUse held.old }
    ensures does { Numbered (λ answer. TakesBurst held.old channel number hcs_ok bytes.now
        answer held.new) result }
    ensures in_use { IsInUse held.new }
{
    held.burst(channel, number, hcs_ok, bytes).number()
}

/// Takes a burst, and tells how much waits then.
pub fn burst_waiting(
    held: &mut HeldReceiver,
    channel: usize,
    number: u32,
    hcs_ok: bool,
    bytes: &[u8],
    waiting: &mut PlainWaiting,
) -> u32
    requires { IsInUse held.old }
    ensures does { Numbered (λ answer. TakesBurst held.old channel number hcs_ok bytes.now
        answer held.new × (waiting.new ≡ waiting_in held.new.queue)) result }
    ensures in_use { IsInUse held.new }
{
    let status = held.burst(channel, number, hcs_ok, bytes);
    *waiting = held.waiting();
    status.number()
}

pub fn decide(held: &mut HeldReceiver, flow: usize, kind: u32, number: u16) -> u32
    requires { IsInUse held.old }
    ensures does { Numbered (λ answer. Decides held.old flow kind number answer held.new) result }
    ensures in_use { IsInUse held.new }
{
    held.decide(flow, kind, number).number()
}

pub fn go_on(held: &mut HeldReceiver, flow: usize) -> u32
    requires { IsInUse held.old }
    ensures does { Numbered (λ answer. GoesOn held.old flow answer held.new) result }
    ensures in_use { IsInUse held.new }
{
    held.go_on(flow).number()
}

pub fn restart(held: &mut HeldReceiver, flow: usize, first: u16, counts: &mut PlainCounts) -> u32
    requires { IsInUse held.old }
    ensures does { Numbered (λ answer. Restarts held.old flow first counts.old answer
        held.new counts.new) result }
    ensures in_use { IsInUse held.new }
{
    held.restart(flow, first, counts).number()
}

pub fn counts(held: &mut HeldReceiver, flow: usize, counts: &mut PlainCounts) -> u32
    requires { IsInUse held.old }
    ensures does { Numbered (λ answer. Counts held.old flow counts.old answer counts.new
        × (held.new ≡ held.old)) result }
    ensures in_use { IsInUse held.new }
{
    held.counts(flow, counts).number()
}

pub fn next_frame(held: &mut HeldReceiver, room: &mut [u8], frame: &mut PlainFrame) -> u32
    requires { IsInUse held.old }
    ensures does { Numbered (λ answer. GivesFrame held.old room.old frame.old answer
        held.new room.new frame.new) result }
    ensures in_use { IsInUse held.new }
{
    held.next_frame(room, frame).number()
}

/// Lends the first frame that waits, and tells it.
pub fn lend_frame(held: &mut HeldReceiver, frame: &mut PlainFrame) -> u32
    requires { IsInUse held.old }
    ensures does { Numbered (λ answer. LendsFrame held.old frame.old answer held.new frame.new)
        result }
    ensures in_use { IsInUse held.new }
{
    held.lend_frame(frame).number()
}

/// The bytes of the frame that is lent.
pub fn lent_bytes(held: &HeldReceiver) -> &[u8]
    ensures { result.now ≡ bytes_lent held.now.lent }
{
    held.lent_bytes()
}

pub fn next_request(held: &mut HeldReceiver, request: &mut PlainRequest) -> u32
    requires { IsInUse held.old }
    ensures does { Numbered (λ answer. GivesRequest held.old request.old answer
        held.new request.new) result }
    ensures in_use { IsInUse held.new }
{
    held.next_request(request).number()
}

pub fn close(held: &mut HeldReceiver) -> u32
    requires { IsInUse held.old }
    ensures does { Numbered (λ answer. Closes held.old answer held.new) result }
    ensures in_use { IsInUse held.new }
{
    held.close().number()
}

/// A receiver that was made, as what is handed out.
pub fn make(
    alloc: Global,
    channels: u32,
    flows: &[PlainFlow],
    rows: &[PlainRow],
    rule: u32,
) -> Handed<HeldReceiver, Global>
    ensures { Gives channels flows.now rows.now rule result.number result.value }
{
    match HeldReceiver::new(alloc, channels, flows, rows, rule) {
        Ok(held) => match Box::new(alloc, held) {
            Ok(boxed) => Handed::of(boxed),
            Err(_) => Handed::refused(alloc, MakeFault::OutOfMemory.number()),
        },
        Err(fault) => Handed::refused(alloc, fault.number()),
    }
}

/// Lets a receiver go.
pub fn free(handed: Handed<HeldReceiver, Global>) -> u32
    ghost value: { HeldReceiver }
    requires { handed.value ≡ Some value }
    ensures { result ≡ 0 }
{
    discard(handed.into_box());
    0
}
