//! What a line is to leave behind.
ghost use Rattle.std.specs.Prelude.{◌≡◌};

use line_text::FileName;
use std::marker::Model;

/// A text. Contracts see it as the list of its bytes.
#[derive(Drop)]
pub struct Text {
    bytes: Vec<u8>,
}

impl Model for Text {
    ghost use Rattle.std.specs.Prelude.{ℕ, List};

    ghost Value = { List ℕ };

    ghost view = { λ text. text.bytes.items };
}

impl Text {
    /// The text of these bytes.
    pub fn new(bytes: Vec<u8>) -> Text
        ensures { result ≡ bytes.items }
    {
        Text { bytes }
    }

    /// The bytes.
    pub fn bytes(&self) -> &[u8]
        ensures { result.now ≡ self.now }
    {
        self.bytes.as_slice()
    }
}

/// What a line is to leave behind, once all that it reads is read.
#[derive(Drop)]
pub enum Effect {
    /// These bytes on the sink.
    Prints(Text),
    /// A file of these bytes on the shelf.
    Saves { file: FileName, text: Text },
}
