//! Bursts with and without a segment are fed to a joiner.
use ccf::Joiner;
use docsis_wire::NoCheck;
use std::test::Fail;
use uses::burst::feed_burst;

#[test]
fn feeds_bursts(rt: HostRuntime) -> Result<(), Fail> {
    let alloc = rt.alloc();
    let mut joiner = Joiner::new(alloc);
    let bursts: [(&[u8], Option<usize>); 4] = [
        (&[0x80, 0, 0, 0, 0, 0, 0, 0, 0, 0, 0, 2, 0x11], Some(0)),
        (&[0x80, 0, 0, 0, 0, 0, 0], None),
        (&[0x80, 9, 0, 8, 0, 0, 0, 0, 0x11, 0xaa, 0xbb], None),
        (&[0, 0, 0, 8, 0, 0, 0, 0, 0x11, 0xaa, 0xbb], Some(1)),
    ];
    for (bytes, frames) in bursts {
        let fed = feed_burst(&mut joiner, alloc, bytes, &NoCheck)?;
        assert!(rt; fed.map(|fed| fed.frames.len()) == frames, "{bytes:?}");
    }
    Ok(())
}
