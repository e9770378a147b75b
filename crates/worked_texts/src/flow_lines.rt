//! Lines that need flows above them.
use std::alloc::{AllocError, Global};

/// So many flows with the identifiers 0, 1 and so on, and then these lines.
pub(crate) fn below_flows(alloc: Global, count: u32, lines: &str) -> Result<String, AllocError> {
    let mut text = String::new(alloc);
    for sfid in 0..count {
        let flow = format!(in alloc; "flow {sfid} 0 16 1\n")?;
        text.push_str(&flow)?;
    }
    text.push_str(lines)?;
    Ok(text)
}
