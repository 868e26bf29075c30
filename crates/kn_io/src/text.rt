ghost use Rattle.std.specs.Prelude.{◌≡◌, ℕ, ◌==◌, List, [], ◌++◌, length, IfOk, OnOk, OnErr, string_bytes};

use crate::NoMemory;
use std::alloc::Global;
use std::marker::Model;

/// An owned text in UTF-8. Contracts see it as the list of its bytes.
#[derive(Drop)]
pub struct Text {
    inner: String,
}

impl Model for Text {
    ghost Value = { List ℕ };

    ghost view = { λ t. string_bytes t.inner };
}

impl Text {
    /// The empty text. Takes no memory.
    pub fn new(alloc: Global) -> Text
        ensures { result ≡ [] }
    {
        Text {
            inner: String::new(alloc),
        }
    }

    /// A copy of the text.
    pub fn of(alloc: Global, text: &str) -> Result<Text, NoMemory>
        ensures { IfOk result (λ copy. copy ≡ text.now) }
    {
        Ok(Text {
            inner: String::from_str(alloc, text)?,
        })
    }

    pub fn as_str(&self) -> &str
        ensures { result.now ≡ self.now }
    {
        self.inner.as_str()
    }

    /// The number of bytes.
    pub fn len(&self) -> usize
        ensures { result ≡ length self.now }
    {
        self.inner.len()
    }

    pub fn is_empty(&self) -> bool
        ensures { result ≡ (length self.now == 0) }
    {
        self.inner.is_empty()
    }

    /// Adds a copy of the text at the end. An `Err` changes nothing.
    pub fn append(&mut self, text: &str) -> Result<(), NoMemory>
        ensures ok { OnOk result (self.new ≡ self.old ++ text.now) }
        ensures err { OnErr result (self.new ≡ self.old) }
    {
        self.inner.push_str(text)?;
        Ok(())
    }
}

#[cfg(test)]
mod tests {
    use crate::{Blob, Text};
    use std::test::Fail;

    #[test]
    fn texts_and_bytes_grow(rt: HostRuntime) -> Result<(), Fail> {
        let mut text = Text::of(rt.alloc(), "ag")?;
        text.append("ent")?;
        assert_eq!(rt; text.as_str(), "agent");
        assert_eq!(rt; text.len(), 5);
        let mut blob = Blob::of(rt.alloc(), b"ag")?;
        blob.append(b"ent")?;
        assert_eq!(rt; blob.as_slice(), b"agent".as_slice());
        assert!(rt; Blob::new(rt.alloc()).is_empty() && Text::new(rt.alloc()).is_empty());
        Ok(())
    }
}
