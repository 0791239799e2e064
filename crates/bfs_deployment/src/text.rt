ghost use Rattle.std.specs.Prelude.{◌≡◌, IfOk};

use bfs_types::Memory;
use std::alloc::Global;
use std::marker::Model;

/// A text that a document says.
#[derive(Debug, Drop)]
pub struct Text {
    text: String,
}

impl Model for Text {
    ghost use Rattle.std.specs.Prelude.{ℕ, List, string_bytes};

    ghost Value = { List ℕ };

    ghost view = { λ held. string_bytes held.text };
}

impl Text {
    /// A copy of that text. `Memory` if memory runs out.
    pub(crate) fn new(alloc: Global, text: &str) -> Result<Text, Memory>
        ensures { IfOk result (λ held. held ≡ text.now) }
    {
        Ok(Text {
            text: String::from_str(alloc, text)?,
        })
    }

    /// The text.
    pub fn as_str(&self) -> &str
        ensures { result.now ≡ self.now }
    {
        self.text.as_str()
    }
}
