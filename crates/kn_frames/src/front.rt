ghost use Rattle.std.specs.Prelude.{◌≡◌, ℕ, ◌<◌, ◌≤◌, List, [], ◌∷◌, ◌++◌, length, take};

use std::marker::Model;

/// The first bytes of a preface or of a head, at most 24. Takes no memory.
#[derive(Drop)]
pub struct Front {
    bytes: [u8; 24],
    len: usize,
}

impl Model for Front {
    ghost Value = { List ℕ };

    ghost view = { λ f. take f.len f.bytes };

    ghost invariant = { λ f. f.len ≤ 24 };
}

impl Front {
    pub fn new() -> Front
        ensures { result ≡ [] }
    {
        Front {
            bytes: [0; 24],
            len: 0,
        }
    }

    pub fn len(&self) -> usize
        ensures value { result ≡ length self.now }
        ensures bound { result ≤ 24 }
    {
        self.len
    }

    pub fn as_slice(&self) -> &[u8]
        ensures { result.now ≡ self.now }
    {
        &self.bytes[..self.len]
    }

    pub fn push(&mut self, byte: u8)
        requires { length self.old < 24 }
        ensures { self.new ≡ self.old ++ byte ∷ [] }
    {
        self.bytes[self.len] = byte;
        self.len += 1;
    }

    pub fn clear(&mut self)
        ensures { self.new ≡ [] }
    {
        self.len = 0;
    }
}
