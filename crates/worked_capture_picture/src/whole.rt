//! Whole pictures.
use crate::drawing::Step::{Burst, Mark};
use crate::drawing::{picture_of, some_channels, text_of};
use capture_picture::CapturePicture;
use capture_picture::Mark::{BadCheck, Late, Lost, Restart};
use std::test::Fail;

/// A picture of two channels and five columns, 204 units each, of which a channel takes 102.
const TWO_CHANNELS: &str = "\
<svg xmlns='http://www.w3.org/2000/svg' viewBox='0 0 1200 544' width='1200' height='544' \
font-family='sans-serif' font-size='12' shape-rendering='crispEdges'>
<rect width='1200' height='544' fill='white'/>
<text x='20' y='28' font-size='18'>Segments of a capture</text>
<g transform='translate(20,44)'>
<g transform='translate(0,0)'><rect width='14' height='14' fill='#1f77b4'/>\
<text x='20' y='12'>channel 0 (id 3)</text></g>
<g transform='translate(190,0)'><rect width='14' height='14' fill='#ff7f0e'/>\
<text x='20' y='12'>channel 1 (id 4)</text></g>
</g>
<g transform='translate(150,84)'>
<text x='-130' y='16' font-size='14'>flow 0, SFID 77: 4 bursts, lost 2, late 1, bad checks 1, restarts 3</text>
<text x='-8' y='38' text-anchor='end'>8205</text>\
<text x='-8' y='132' text-anchor='end'>segment index</text>\
<text x='-8' y='228' text-anchor='end'>8202</text>
<g transform='translate(0,28)' fill='none' stroke-width='102'>
<rect width='1020' height='200' stroke='#999' stroke-width='1'/>
<path stroke='#1f77b4' d='M51 197v3M663 0v3'/>
<path stroke='#ff7f0e' d='M357 132v3M765 66v3'/>
</g>
<g transform='translate(0,240)' stroke-width='204'>
<text x='-8' y='10' text-anchor='end'>lost</text>\
<path stroke='red' d='M306 0v10'/>
<text x='-8' y='24' text-anchor='end'>late</text>\
<path transform='translate(0,14)' stroke='orange' d='M714 0v10'/>
<text x='-8' y='38' text-anchor='end'>bad checks</text>\
<path transform='translate(0,28)' stroke='purple' d='M102 0v10'/>
<text x='-8' y='52' text-anchor='end'>restarts</text>\
<path transform='translate(0,42)' stroke='black' d='M918 0v10'/>
</g>
<text x='0' y='314'>segments behind the newest</text>\
<text x='-8' y='330' text-anchor='end'>1</text><text x='-8' y='380' text-anchor='end'>0</text>
<g transform='translate(0,320)' fill='none' stroke-width='102'>
<rect width='1020' height='60' stroke='#999' stroke-width='1'/>
<path stroke='#1f77b4' d='M51 57v3M663 57v3'/>
<path stroke='#ff7f0e' d='M357 57v3M765 0v3'/>
</g>
<text x='0' y='396'>0 s</text><text text-anchor='end' y='396' x='1020'>0.000 s</text>
</g>
</svg>
";

#[test]
fn two_channels_are_drawn(rt: HostRuntime) -> Result<(), Fail> {
    let steps = [
        Burst(0, 5_000, 0, 10),
        Burst(0, 6_000, 1, 11),
        Mark(0, 6_000, Lost, 2),
        Burst(0, 8_000, 0, 13),
        Burst(0, 8_500, 1, 12),
        Mark(0, 8_500, Late, 1),
        Mark(0, 5_000, BadCheck, 1),
        Mark(0, 9_999, Restart, 3),
        Mark(1, 9_999, Restart, 3),
    ];
    let picture = picture_of(rt.alloc(), 2, &steps)?;
    let text = text_of(rt.alloc(), &picture)?;
    assert!(rt; text.as_slice() == TWO_CHANNELS.as_bytes());
    Ok(())
}

/// A picture of nothing.
const NOTHING: &str = "\
<svg xmlns='http://www.w3.org/2000/svg' viewBox='0 0 1200 94' width='1200' height='94' \
font-family='sans-serif' font-size='12' shape-rendering='crispEdges'>
<rect width='1200' height='94' fill='white'/>
<text x='20' y='28' font-size='18'>Segments of a capture</text>
<g transform='translate(20,44)'>
</g>
</svg>
";

#[test]
fn nothing_is_drawn(rt: HostRuntime) -> Result<(), Fail> {
    let mut picture = CapturePicture::new(rt.alloc(), some_channels(rt.alloc(), 0)?);
    picture.mark(0, 5, Lost, 1);
    let text = text_of(rt.alloc(), &picture)?;
    assert!(rt; text.as_slice() == NOTHING.as_bytes());
    Ok(())
}

/// The last channel of sixteen: in the third row of the legend, in its own colour.
const LAST_CHANNEL: &str = "\
<g transform='translate(570,40)'><rect width='14' height='14' fill='#46f0f0'/>\
<text x='20' y='12'>channel 15 (id 18)</text></g>
</g>
<g transform='translate(150,124)'>
";

#[test]
fn sixteen_channels_stand_in_three_rows(rt: HostRuntime) -> Result<(), Fail> {
    let picture = picture_of(rt.alloc(), 17, &[Burst(0, 0, 15, 0)])?;
    let text = text_of(rt.alloc(), &picture)?;
    let text = str::from_utf8(text.as_slice())?;
    assert!(rt; text.contains(LAST_CHANNEL));
    assert!(rt; text.contains("<path stroke='#46f0f0' d='M992 197v3'/>\n</g>\n"));
    Ok(())
}
