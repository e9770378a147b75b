//! Sources that read inputs from bytes, to their end and up to each fault.
use std::alloc::{AllocError, Global};
use std::io::Cursor;
use std::test::Fail;
use uplink::{ChannelInput, Input, LiveSource};
use uses::byte_source::{ByteSource, InputFault, SourceEnd};

/// The kinds of inputs as bytes say them.
const GRANT: u8 = 0;

const BURST: u8 = 1;

/// A grant of 8 bytes on channel 5 under the number 258 to the service identifier 3, and a
/// burst in it.
const FORMS: [u8; 31] = [
    5, 0, 0, 0, 1, 2, 0, 3, 0, 0, 0, 8, 5, 1, 0, 0, 1, 2, 1, 0, 0, 0, 8, 9, 9, 9, 9, 9, 9, 9, 9,
];

/// What a source says of an input: its channel, its kind, its number, and a flow's identifier
/// and how many bytes, or whether its check is right and its bytes.
type Form = (u8, u8, u32, u32, usize);

fn next_form<S: LiveSource>(source: &mut S) -> Option<Form> {
    let ChannelInput { channel, input } = source.next()?;
    match input {
        Input::Grant { number, sid, bytes } => {
            Some((channel, GRANT, number, bytes, usize::from(sid)))
        }
        Input::Burst {
            grant,
            hcs_ok,
            bytes,
        } => Some((channel, BURST, grant, u32::from(hcs_ok), bytes.len())),
    }
}

/// Reads these bytes, and answers what the first three calls gave and how the source ended.
fn read_three(
    alloc: Global,
    bytes: &[u8],
) -> Result<([Option<Form>; 3], Option<SourceEnd>), AllocError> {
    let (mut source, end) = ByteSource::new(alloc, Cursor::new(bytes.to_vec(alloc)?))?;
    let given = [
        next_form(&mut source),
        next_form(&mut source),
        next_form(&mut source),
    ];
    Ok((given, end.get()))
}

const GRANT_READ: Option<Form> = Some((5, GRANT, 258, 8, 3));

const BURST_READ: Option<Form> = Some((5, BURST, 258, 1, 8));

#[test]
fn inputs_are_read_to_their_end(rt: HostRuntime) -> Result<(), Fail> {
    let (given, end) = read_three(rt.alloc(), &FORMS)?;
    assert!(rt; given == [GRANT_READ, BURST_READ, None]);
    assert!(rt; end == Some(Ok(())));
    Ok(())
}

#[test]
fn source_has_not_ended_before_its_bytes(rt: HostRuntime) -> Result<(), Fail> {
    let bytes = FORMS.to_vec(rt.alloc())?;
    let (mut source, end) = ByteSource::new(rt.alloc(), Cursor::new(bytes))?;
    assert!(rt; next_form(&mut source) == GRANT_READ);
    assert!(rt; end.get() == None);
    Ok(())
}

/// How a source of these bytes ends behind a grant.
fn end_behind_grant(alloc: Global, rest: &[u8]) -> Result<Option<SourceEnd>, AllocError> {
    let mut bytes = FORMS[..12].to_vec(alloc)?;
    bytes.extend_from_slice(rest)?;
    let (given, end) = read_three(alloc, &bytes)?;
    Ok(if given == [GRANT_READ, None, None] {
        end
    } else {
        None
    })
}

#[test]
fn faults_end_a_source(rt: HostRuntime) -> Result<(), Fail> {
    let cases: [(&[u8], InputFault); 6] = [
        (&[5], InputFault::CutOff),
        (&[5, 2], InputFault::UnknownKind(2)),
        (&[5, 0, 1, 2, 3, 4, 5], InputFault::CutOff),
        (&[5, 1, 0, 0, 0, 0, 2], InputFault::UnknownCheck(2)),
        (
            &[5, 1, 0, 0, 0, 0, 0, 0, 1, 0, 0],
            InputFault::TooLong(65_536),
        ),
        (&[5, 1, 0, 0, 0, 0, 0, 0, 0, 0, 2, 7], InputFault::CutOff),
    ];
    for (rest, fault) in cases {
        let end = end_behind_grant(rt.alloc(), rest)?;
        assert!(rt; end == Some(Err(fault)));
    }
    Ok(())
}
