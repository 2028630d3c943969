//! An owned text in UTF-8, which contracts see as its bytes.
ghost use Rattle.std.specs.Prelude.{◌≡◌, ◌++◌, IfOk, []};
ghost use Rattle.std.specs.String.{string_bytes};

use crate::fault::Memory;
use crate::short::{Kept, SHORT, Short};
use std::alloc::Global;
use std::marker::Model;

/// An owned text in UTF-8. Contracts see its bytes. Few bytes stand in the text itself, so that most names and symbols take
/// no memory of their own.
#[derive(Debug, Drop)]
pub struct Text {
    inner: Kept,
}

impl Model for Text {
    ghost use Rattle.std.specs.Prelude.{List, ℕ};
    ghost use Rattle.hl_base.specs.Texts.{bytes_of};

    ghost Value = { List ℕ };

    ghost view = { λ t. bytes_of t.inner };
}

impl Text {
    /// An empty text, which takes no memory.
    pub fn new(_alloc: Global) -> Text
        ensures { result ≡ [] }
    {
        Text {
            inner: Kept::Here(Short::new()),
        }
    }

    /// The text of a string, without a copy.
    pub fn from_string(string: String) -> Text
        ensures { result ≡ string_bytes string }
    {
        Text {
            inner: Kept::Apart(string),
        }
    }

    /// A copy of a text.
    pub fn copied(alloc: Global, text: &str) -> Result<Text, Memory>
        ensures { IfOk result (λ copy. copy ≡ text.now) }
    {
        if text.len() <= SHORT {
            return Ok(Text {
                inner: Kept::Here(Short::copied(text)),
            });
        }
        Ok(Text {
            inner: Kept::Apart(String::from_str(alloc, text)?),
        })
    }

    /// Two texts, one behind the other.
    pub fn joined(alloc: Global, front: &str, back: &str) -> Result<Text, Memory>
        ensures { IfOk result (λ text. text ≡ front.now ++ back.now) }
    {
        let mut text = String::from_str(alloc, front)?;
        text.push_str(back)?;
        Ok(Text::from_string(text))
    }

    /// The string of the text: the one that holds it, without a copy, or a new one where the bytes stand in the text.
    pub fn into_string(self, alloc: Global) -> Result<String, Memory>
        ensures { IfOk result (λ string. string_bytes string ≡ self) }
    {
        match self.inner {
            Kept::Here(short) => Ok(String::from_str(alloc, short.as_str())?),
            Kept::Apart(string) => Ok(string),
        }
    }

    pub fn as_str(&self) -> &str
        ensures { result.now ≡ self.now }
    {
        match &self.inner {
            Kept::Here(short) => short.as_str(),
            Kept::Apart(string) => string.as_str(),
        }
    }

    pub fn as_bytes(&self) -> &[u8]
        ensures { result.now ≡ self.now }
    {
        self.as_str().as_bytes()
    }
}
