//! A text that is put together part by part.

use itoa::Buffer;
use std::alloc::{AllocError, Global};

/// A text, in bytes, as what programs put may be no characters. Where memory runs out parts of it are missing, and its end tells so:
/// so only the end can fail.
#[derive(Drop)]
pub struct Text {
    text: Vec<u8>,
    is_cut: bool,
}

impl Text {
    /// Nothing yet.
    pub fn new(alloc: Global) -> Text {
        Text {
            text: Vec::new(alloc),
            is_cut: false,
        }
    }

    /// A part.
    pub fn put(&mut self, part: &str) {
        self.bytes(part.as_bytes());
    }

    /// Bytes as they are.
    pub fn bytes(&mut self, part: &[u8]) {
        if self.text.extend_from_slice(part).is_err() {
            self.is_cut = true;
        }
    }

    /// Bytes without the blanks and line feeds at their end.
    pub fn trimmed(&mut self, part: &[u8]) {
        self.bytes(part.trim_ascii_end());
    }

    /// A whole number.
    pub fn whole(&mut self, number: i128) {
        self.put(Buffer::new().format(number));
    }

    /// A number from 0 on.
    pub fn natural(&mut self, number: u128) {
        self.put(Buffer::new().format(number));
    }

    /// Another line, where there is one already.
    pub fn break_line(&mut self) {
        if !self.text.is_empty() {
            self.put("\n");
        }
    }

    /// A line of two parts, with its line feed.
    pub fn put_line(&mut self, front: &str, text: &str) {
        self.put(front);
        self.put(text);
        self.put("\n");
    }

    /// Lines with two blanks in front of each. The last one may lack its line feed, and gets it.
    pub fn put_indented(&mut self, lines: &[u8]) {
        let mut begins = true;
        for byte in lines {
            if begins {
                self.put("  ");
            }
            self.bytes(&[*byte]);
            begins = *byte == b'\n';
        }
        if !begins {
            self.put("\n");
        }
    }

    /// The lines of another text, with two blanks in front of each. Where parts of that one are missing, parts of this one are.
    pub fn put_indented_text(&mut self, text: &Text) {
        self.put_indented(&text.text);
        if text.is_cut {
            self.is_cut = true;
        }
    }

    /// Whether nothing was put yet.
    pub fn is_empty(&self) -> bool {
        self.text.is_empty()
    }

    /// Memory ran out elsewhere.
    pub fn cut(&mut self) {
        self.is_cut = true;
    }

    /// The text.
    ///
    /// # Errors
    /// Want of memory.
    pub fn end(self) -> Result<Vec<u8>, AllocError> {
        if self.is_cut {
            return Err(AllocError);
        }
        Ok(self.text)
    }
}
