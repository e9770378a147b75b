//! Parts that come one after another, and are joined or refused.
use super::{MODEM, change, first, second, told_by_response, whole};
use registrations::{
    JoinFault, LONGEST_MESSAGE, MOST_UNDER_WAY, MessageName, Part, Unfinished, WholeMessage,
    read_part, told_by,
};
use std::alloc::Global;
use std::test::Fail;

/// What comes of the part in a packet.
pub(super) fn take(
    alloc: Global,
    unfinished: &mut Unfinished,
    packet: &[u8],
) -> Result<Option<WholeMessage>, JoinFault> {
    match read_part(packet) {
        Ok(part) => unfinished.take(alloc, part),
        Err(_) => Ok(None),
    }
}

/// How many bytes of TLVs the message has that was given, if one was.
fn given(taken: &Result<Option<WholeMessage>, JoinFault>) -> Option<usize> {
    match taken {
        Ok(Some(message)) => Some(message.tlvs.len()),
        _ => None,
    }
}

/// Whether a part was taken, and no message given.
fn is_kept(taken: &Result<Option<WholeMessage>, JoinFault>) -> bool {
    matches!(taken, Ok(None))
}

/// A part of a DBC-REQ of this transaction.
fn part(modem: u64, transaction: u16, of: u8, number: u8, tlvs: &[u8]) -> Part<'_> {
    Part {
        modem,
        message: MessageName::DbcReq { transaction },
        of,
        number,
        tlvs,
    }
}

#[test]
fn a_message_in_two_parts(rt: HostRuntime) -> Result<(), Fail> {
    let mut unfinished = Unfinished::new(rt.alloc());
    let kept = take(rt.alloc(), &mut unfinished, first());
    assert!(rt; is_kept(&kept));
    assert!(rt; unfinished.count() == 1);
    let given = take(rt.alloc(), &mut unfinished, second())?.ok_or("a message")?;
    assert!(rt; given.modem == MODEM);
    assert!(rt;
        given.message
            == MessageName::RegRspMp {
                sid: 2,
                response: 0
            }
    );
    let told = told_by(rt.alloc(), &given.tlvs)?;
    assert!(rt; told.as_slice() == told_by_response().as_slice());
    assert!(rt; unfinished.count() == 0);
    Ok(())
}

#[test]
fn messages_in_one_part(rt: HostRuntime) {
    let mut unfinished = Unfinished::new(rt.alloc());
    for (packet, bytes) in [(whole(), 149), (change(), 37), (whole(), 149)] {
        let taken = take(rt.alloc(), &mut unfinished, packet);
        assert!(rt; given(&taken) == Some(bytes));
        assert!(rt; unfinished.count() == 0);
    }
}

#[test]
fn a_first_part_begins_anew(rt: HostRuntime) {
    let mut unfinished = Unfinished::new(rt.alloc());
    let early = take(rt.alloc(), &mut unfinished, second());
    assert!(rt; early.err() == Some(JoinFault::NoBeginning));
    for _ in 0..2 {
        let kept = take(rt.alloc(), &mut unfinished, first());
        assert!(rt; is_kept(&kept));
    }
    assert!(rt; unfinished.count() == 1);
    let joined = take(rt.alloc(), &mut unfinished, second());
    assert!(rt; given(&joined) == Some(149));
    let again = take(rt.alloc(), &mut unfinished, second());
    assert!(rt; again.err() == Some(JoinFault::NoBeginning));
    let kept = take(rt.alloc(), &mut unfinished, first());
    assert!(rt; is_kept(&kept));
    let other = take(rt.alloc(), &mut unfinished, change());
    assert!(rt; given(&other) == Some(37));
    let late = take(rt.alloc(), &mut unfinished, second());
    assert!(rt; late.err() == Some(JoinFault::NoBeginning));
}

#[test]
fn parts_out_of_turn(rt: HostRuntime) {
    let mut unfinished = Unfinished::new(rt.alloc());
    let kept = unfinished.take(rt.alloc(), part(7, 1, 3, 1, &[1]));
    assert!(rt; is_kept(&kept));
    let wrong = [
        part(7, 1, 3, 3, &[]),
        part(7, 2, 3, 2, &[]),
        part(7, 1, 4, 2, &[]),
        Part {
            message: MessageName::RegRspMp {
                sid: 1,
                response: 0,
            },
            ..part(7, 1, 3, 2, &[])
        },
    ];
    for refused in wrong {
        let taken = unfinished.take(rt.alloc(), refused);
        assert!(rt; taken.err() == Some(JoinFault::OutOfTurn));
    }
    let kept = unfinished.take(rt.alloc(), part(7, 1, 3, 2, &[2, 3]));
    assert!(rt; is_kept(&kept));
    let again = unfinished.take(rt.alloc(), part(7, 1, 3, 2, &[2, 3]));
    assert!(rt; again.err() == Some(JoinFault::OutOfTurn));
    let taken = unfinished.take(rt.alloc(), part(7, 1, 3, 3, &[4]));
    assert!(rt;
        matches!(&taken, Ok(Some(message)) if message.tlvs.as_slice() == [1, 2, 3, 4].as_slice())
    );
}

#[test]
fn parts_of_two_modems(rt: HostRuntime) {
    let mut unfinished = Unfinished::new(rt.alloc());
    for modem in [7, 8] {
        let kept = unfinished.take(rt.alloc(), part(modem, 1, 2, 1, &[1]));
        assert!(rt; is_kept(&kept));
    }
    assert!(rt; unfinished.count() == 2);
    for modem in [7, 8] {
        let taken = unfinished.take(rt.alloc(), part(modem, 1, 2, 2, &[2]));
        assert!(rt; given(&taken) == Some(2));
    }
}

#[test]
fn as_many_bytes_as_may_be(rt: HostRuntime) -> Result<(), Fail> {
    let mut unfinished = Unfinished::new(rt.alloc());
    let bytes = vec![in rt.alloc(); 0xff_u8; LONGEST_MESSAGE]?;
    let longer = vec![in rt.alloc(); 0xff_u8; LONGEST_MESSAGE + 1]?;
    let taken = unfinished.take(rt.alloc(), part(7, 1, 1, 1, &bytes));
    assert!(rt; given(&taken) == Some(LONGEST_MESSAGE));
    let taken = unfinished.take(rt.alloc(), part(7, 1, 1, 1, &longer));
    assert!(rt; taken.err() == Some(JoinFault::TooLong));
    let kept = unfinished.take(rt.alloc(), part(7, 1, 3, 1, &bytes));
    assert!(rt; is_kept(&kept));
    let taken = unfinished.take(rt.alloc(), part(7, 1, 3, 2, &[0]));
    assert!(rt; taken.err() == Some(JoinFault::TooLong));
    let kept = unfinished.take(rt.alloc(), part(7, 1, 3, 2, &[]));
    assert!(rt; is_kept(&kept));
    Ok(())
}

#[test]
fn as_many_messages_as_may_be(rt: HostRuntime) {
    let mut unfinished = Unfinished::new(rt.alloc());
    for modem in 0..MOST_UNDER_WAY as u64 {
        let kept = unfinished.take(rt.alloc(), part(modem, 1, 2, 1, &[1]));
        assert!(rt; is_kept(&kept));
    }
    assert!(rt; unfinished.count() == MOST_UNDER_WAY);
    let more = unfinished.take(rt.alloc(), part(1000, 1, 2, 1, &[1]));
    assert!(rt; more.err() == Some(JoinFault::TooManyUnderWay));
    let whole = unfinished.take(rt.alloc(), part(1000, 1, 1, 1, &[1]));
    assert!(rt; given(&whole) == Some(1));
    let anew = unfinished.take(rt.alloc(), part(0, 2, 2, 1, &[1]));
    assert!(rt; is_kept(&anew));
    unfinished.forget();
    assert!(rt; unfinished.count() == 0);
    let late = unfinished.take(rt.alloc(), part(1, 1, 2, 2, &[1]));
    assert!(rt; late.err() == Some(JoinFault::NoBeginning));
}
