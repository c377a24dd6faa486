// A text that is put together in a room of fixed size, piece after piece.
ghost use Rattle.std.specs.Prelude.{◌≡◌, [], IsOk};
ghost use Rattle.telling.specs.Text.{with_piece};

use std::fmt;
use std::marker::Model;

// Room for any words of a picture, which have less than 1,000 bytes but where an origin is longer than any tape's.
const ROOM: usize = 8192;

// A text of at most 8,192 bytes, empty at first; write! puts pieces at its end.
#[derive(Drop)]
pub struct Text {
    bytes: [u8; ROOM],
    len: usize,
}

impl Model for Text {
    ghost use Rattle.std.specs.Prelude.{ℕ, ◌≤◌, List, take};

    ghost Value = { List ℕ };

    ghost view = { λ t. take t.len t.bytes };

    ghost invariant = { λ t. t.len ≤ 8192 };
}

impl Text {
    // A text without a piece.
    pub fn new() -> Text
        ensures { result ≡ [] }
    {
        Text {
            bytes: [0; ROOM],
            len: 0,
        }
    }

    // The pieces that fit, one after the other.
    pub fn as_bytes(&self) -> &[u8]
        ensures { result.now ≡ self.now }
    {
        &self.bytes[..self.len]
    }
}

// A piece that doesn't fit is left out, which is no error; those after it are put in where they fit.
impl fmt::Write for Text {
    ghost write_str_gives = { λ said piece now. now ≡ with_piece said piece };

    #[tactic(auto, unfolding(crate::specs::Text::with_piece))]
    fn write_str(&mut self, s: &str) -> fmt::Result
        ensures ok { IsOk result }
        ensures said { self.new ≡ with_piece self.old s.now }
    {
        let len = self.len;
        if s.len() <= ROOM - len {
            let end = len + s.len();
            self.bytes[len..end].copy_from_slice(s.as_bytes());
            self.len = end;
        }
        Ok(())
    }
}
