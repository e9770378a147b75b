//! TLVs that tell nothing.
use super::whole;
use registrations::{ToldFault, read_part, told_by};
use std::test::Fail;

/// A name, and the TLVs of a message.
fn malformed() -> &'static [(&'static str, &'static [u8])] {
    &[
        ("a type alone", &[24]),
        ("a TLV of another type that overruns", &[18, 2, 7]),
        ("a TLV 24 that overruns", &[24, 4, 3, 2, 0]),
        (
            "a TLV in a TLV 24 that overruns it",
            &[24, 4, 3, 3, 0, 7, 0],
        ),
        ("a reference of one byte", &[24, 3, 1, 1, 7]),
        ("an SFID of three bytes", &[24, 5, 2, 3, 0, 0, 7]),
        ("a SID of three bytes", &[24, 5, 3, 3, 0, 0, 7]),
        ("a policy of five bytes", &[24, 7, 16, 5, 0, 0, 0, 0, 7]),
        ("SIDs without an SFID", &[47, 0]),
        ("an SFID of two bytes among SIDs", &[47, 4, 1, 2, 0, 7]),
        ("a cluster without an id", &[47, 8, 1, 4, 0, 0, 0, 7, 2, 0]),
        (
            "a cluster id of two bytes",
            &[47, 12, 1, 4, 0, 0, 0, 7, 2, 4, 1, 2, 0, 0],
        ),
        (
            "a TLV in a cluster that overruns it",
            &[47, 12, 1, 4, 0, 0, 0, 7, 2, 4, 1, 1, 0, 9],
        ),
        (
            "a channel without an id",
            &[
                47, 20, 1, 4, 0, 0, 0, 7, 2, 12, 1, 1, 0, 2, 7, 2, 2, 1, 0, 3, 1, 1,
            ],
        ),
        (
            "a channel without a SID",
            &[
                47, 19, 1, 4, 0, 0, 0, 7, 2, 11, 1, 1, 0, 2, 6, 1, 1, 17, 3, 1, 1,
            ],
        ),
        (
            "a channel without an action",
            &[
                47, 20, 1, 4, 0, 0, 0, 7, 2, 12, 1, 1, 0, 2, 7, 1, 1, 17, 2, 2, 1, 0,
            ],
        ),
        (
            "action 3",
            &[
                47, 23, 1, 4, 0, 0, 0, 7, 2, 15, 1, 1, 0, 2, 10, 1, 1, 17, 2, 2, 1, 0, 3, 1, 3,
            ],
        ),
        ("a fault behind what is right", &[24, 4, 3, 2, 0, 7, 47, 0]),
    ]
}

#[test]
fn malformed_tlvs_tell_nothing(rt: HostRuntime) {
    for (name, tlvs) in malformed() {
        let told = told_by(rt.alloc(), tlvs);
        assert!(rt; told.err() == Some(ToldFault::Malformed), "{name}");
    }
}

#[test]
fn a_prefix_of_a_message_tells_nothing_more(rt: HostRuntime) -> Result<(), Fail> {
    let part = read_part(whole()).ok().ok_or("a part")?;
    for (end, _) in part.tlvs.iter().enumerate() {
        let front = part.tlvs.get(..end).unwrap_or_default();
        let told = told_by(rt.alloc(), front);
        if end == 0 || end == 22 || end == 83 {
            assert!(rt; told.is_ok());
        } else {
            assert!(rt; told.err() == Some(ToldFault::Malformed), "{end} bytes");
        }
    }
    Ok(())
}
