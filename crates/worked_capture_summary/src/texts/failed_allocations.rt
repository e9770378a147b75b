//! Each allocation is refused once: a text that lacks something is not given, and a second call
//! gives all of it.
use super::{JSON, LINES, REPORT, lines_of_requests, much};
use capture_json::summary_json;
use capture_summary::put_report;
use std::alloc::{AllocError, Global};
use std::test::Fail;
use text_lines::TextBuffer;

/// The report of a capture of much.
fn report_of_much(alloc: Global) -> Result<Vec<u8>, AllocError> {
    let summary = much(alloc)?;
    let mut text = TextBuffer::new(alloc);
    put_report(&mut text, &summary);
    text.finish()
}

#[test]
fn a_report_is_put(rt: HostRuntime) -> Result<(), Fail> {
    let text = match report_of_much(rt.alloc()) {
        Ok(text) => text,
        Err(AllocError) => report_of_much(rt.alloc())?,
    };
    assert!(rt; text.as_slice() == REPORT.as_bytes());
    Ok(())
}

#[test]
fn lines_of_requests_are_put(rt: HostRuntime) -> Result<(), Fail> {
    let text = match lines_of_requests(rt.alloc()) {
        Ok(text) => text,
        Err(AllocError) => lines_of_requests(rt.alloc())?,
    };
    assert!(rt; text.as_slice() == LINES.as_bytes());
    Ok(())
}

#[test]
fn json_is_made(rt: HostRuntime) -> Result<(), Fail> {
    let summary = match much(rt.alloc()) {
        Ok(summary) => summary,
        Err(AllocError) => much(rt.alloc())?,
    };
    let text = match summary_json(rt.alloc(), &summary, None, &[], 0) {
        Ok(text) => text,
        Err(AllocError) => summary_json(rt.alloc(), &summary, None, &[], 0)?,
    };
    assert!(rt; text.as_slice() == JSON.as_bytes());
    Ok(())
}
