//! A line of text that a key or an event prints as.
ghost use Rattle.std.specs.Prelude.{◌≡◌};

use std::marker::Model;

/// A text without its line feed, as bytes.
#[derive(Drop)]
pub struct Line {
    bytes: Vec<u8>,
}

impl Model for Line {
    ghost use Rattle.std.specs.Prelude.{List, ℕ};

    ghost Value = { List ℕ };

    ghost view = { λ l. l.bytes.items };
}

impl Line {
    /// A line of these bytes. It takes no memory.
    pub fn from_bytes(bytes: Vec<u8>) -> Line
        ensures { result ≡ bytes.items }
    {
        Line { bytes }
    }

    /// The bytes.
    pub fn as_bytes(&self) -> &[u8]
        ensures { result.now ≡ self.now }
    {
        self.bytes.as_slice()
    }

    /// The bytes, owned. It takes no memory.
    pub fn into_bytes(self) -> Vec<u8>
        ensures { result.items ≡ self }
    {
        self.bytes
    }
}
