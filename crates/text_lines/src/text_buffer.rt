//! A text in memory.
ghost use Rattle.std.specs.Prelude.{◌≡◌, [], IsTrue, IfOk};

use crate::put_text::PutText;
use std::alloc::{AllocError, Global};

/// A text in memory. It is whole as long as there was memory for all that was put.
#[derive(Drop)]
pub struct TextBuffer {
    text: Vec<u8>,
    whole: bool,
}

impl TextBuffer {
    /// An empty text.
    pub fn new(alloc: Global) -> TextBuffer
        ensures empty { result.text.items ≡ [] }
        ensures whole { IsTrue result.whole }
    {
        TextBuffer {
            text: Vec::new(alloc),
            whole: true,
        }
    }

    /// An empty text with room for so many bytes.
    pub fn with_capacity(alloc: Global, capacity: usize) -> Result<TextBuffer, AllocError>
        ensures empty { IfOk result (λ buffer. buffer.text.items ≡ []) }
        ensures whole { IfOk result (λ buffer. IsTrue buffer.whole) }
    {
        Ok(TextBuffer {
            text: Vec::with_capacity(alloc, capacity)?,
            whole: true,
        })
    }

    /// The text. Otherwise it reports that an allocation failed.
    pub fn finish(self) -> Result<Vec<u8>, AllocError>
        ensures whole { IfOk result (λ text. IsTrue self.whole) }
        ensures text { IfOk result (λ text. text.items ≡ self.text.items) }
    {
        if !self.whole {
            return Err(AllocError);
        }
        Ok(self.text)
    }
}

impl PutText for TextBuffer {
    ghost use Rattle.text_lines.specs.Putting.{HasGrown};

    ghost after = { HasGrown };

    fn put(&mut self, bytes: &[u8]) {
        if self.whole {
            self.whole = self.text.extend_from_slice(bytes).is_ok();
        }
    }

    fn is_closed(&self) -> bool {
        !self.whole
    }
}
