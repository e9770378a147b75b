//! What takes much, and is read or refused all the same.
use super::{are, beginning_and_rest, records_of, wanted};
use capture::{LONGEST_RECORD, MOST_INTERFACES, PcapngFault, PcapngReader};
use std::test::Fail;

/// A block of another type with 4 MiB, but for its bytes.
fn long_block() -> (&'static [u8], &'static [u8]) {
    (&[0, 0, 0, 10, 0, 0x40, 0, 0], &[0, 0x40, 0, 0])
}

#[test]
fn a_long_block_of_another_type_is_passed_over(rt: HostRuntime) -> Result<(), Fail> {
    let (front, last) = long_block();
    let mut reader = PcapngReader::new(rt.alloc());
    let mut records = Vec::new(rt.alloc());
    let (head, packets) = beginning_and_rest().ok_or("a file")?;
    records_of(rt.alloc(), &mut reader, head, &mut records)?;
    records_of(rt.alloc(), &mut reader, front, &mut records)?;
    let filler = vec![in rt.alloc(); 0xff_u8; 4084]?;
    for _ in 0..1027 {
        records_of(rt.alloc(), &mut reader, &filler, &mut records)?;
    }
    assert!(rt; reader.finish().err() == Some(PcapngFault::EndsInside));
    records_of(rt.alloc(), &mut reader, &filler[..24], &mut records)?;
    records_of(rt.alloc(), &mut reader, last, &mut records)?;
    records_of(rt.alloc(), &mut reader, packets, &mut records)?;
    assert!(rt; are(&records, wanted()));
    assert!(rt; reader.finish().is_ok());
    Ok(())
}

#[test]
fn a_packet_of_1_mib_is_read(rt: HostRuntime) -> Result<(), Fail> {
    let mut file = Vec::new(rt.alloc());
    let (head, _) = beginning_and_rest().ok_or("a file")?;
    file.extend_from_slice(head)?;
    file.extend_from_slice(&[
        0, 0, 0, 6, 0, 0x10, 0, 32, 0, 0, 0, 0, 0, 0, 0, 0, 0, 0, 0, 0,
    ])?;
    file.extend_from_slice(&[0, 0x10, 0, 0, 0, 0x10, 0, 0])?;
    let bytes = vec![in rt.alloc(); 0x5a_u8; LONGEST_RECORD as usize]?;
    file.extend_from_slice(&bytes)?;
    file.extend_from_slice(&[0, 0x10, 0, 32])?;
    let mut reader = PcapngReader::new(rt.alloc());
    let mut records = Vec::new(rt.alloc());
    for piece in file.chunks(65_536) {
        records_of(rt.alloc(), &mut reader, piece, &mut records)?;
    }
    let [record] = records.as_slice() else {
        return Err("one packet".into());
    };
    assert!(rt; record.bytes.as_slice() == bytes.as_slice());
    Ok(())
}

#[test]
fn as_many_interfaces_as_may_be(rt: HostRuntime) -> Result<(), Fail> {
    let mut reader = PcapngReader::new(rt.alloc());
    let mut records = Vec::new(rt.alloc());
    let (head, packets) = beginning_and_rest().ok_or("a file")?;
    let (_, interface) = head.split_at_checked(28).ok_or("an interface")?;
    records_of(rt.alloc(), &mut reader, head, &mut records)?;
    for _ in 1..MOST_INTERFACES {
        records_of(rt.alloc(), &mut reader, interface, &mut records)?;
    }
    records_of(rt.alloc(), &mut reader, packets, &mut records)?;
    assert!(rt; are(&records, wanted()));
    let more = records_of(rt.alloc(), &mut reader, interface, &mut records);
    assert!(rt; more.err() == Some(PcapngFault::TooManyInterfaces));
    Ok(())
}
