//! Texts, of which the short ones lie in the value itself.

ghost use Rattle.std.specs.Prelude.{◌≡◌, ◌++◌, [], string_bytes, IfOk, OnOk, OnErr};
ghost use Rattle.ss_units.specs.Texts.{held_bytes};

use arrayvec::ArrayString;
use std::alloc::{AllocError, Global};
use std::marker::Model;
use std::mem::size_of;

/// How many bytes a text may have that takes no memory.
const SHORT: usize = 40;

const _: () = prove!(size_of::<Text>() == 56);

/// Where the bytes of a text lie.
#[derive(Drop)]
enum Holding {
    Short(ArrayString<SHORT>),
    Long(String),
}

/// UTF-8 text, which contracts see as the list of its bytes. Up to 40 bytes lie in the value itself, unless the text was made of
/// a string or given room for more.
#[derive(Drop)]
pub struct Text {
    holding: Holding,
}

impl Model for Text {
    ghost use Rattle.std.specs.Prelude.{ℕ, List};
    ghost use Rattle.ss_units.specs.Texts.{held_bytes};

    ghost Value = { List ℕ };

    ghost view = { λ t. held_bytes t.holding };
}

impl Text {
    /// A text with the bytes of `text`. It fails only where no memory is left.
    pub fn new(alloc: Global, text: &str) -> Result<Text, AllocError>
        ensures { IfOk result (λ t. t ≡ text.now) }
    {
        let holding = match ArrayString::from(text) {
            Ok(short) => Holding::Short(short),
            Err(_) => Holding::Long(String::from_str(alloc, text)?),
        };
        Ok(Text { holding })
    }

    /// A text that equals this one. It fails only where no memory is left.
    pub fn copy(&self, alloc: Global) -> Result<Text, AllocError>
        ensures { IfOk result (λ t. t ≡ self.now) }
    {
        Text::new(alloc, self.as_str())
    }

    /// The text that a string holds. It takes no memory.
    pub fn from_string(inner: String) -> Text
        ensures { result ≡ string_bytes inner }
    {
        Text {
            holding: Holding::Long(inner),
        }
    }

    /// The text itself, as a string slice.
    #[inline(always)]
    pub fn as_str(&self) -> &str
        ensures { result.now ≡ self.now }
    {
        match &self.holding {
            Holding::Short(short) => short.as_str(),
            Holding::Long(long) => long.as_str(),
        }
    }

    /// A text with no byte, and with room for so many. Room for up to 40 takes no memory. It fails only where none is left.
    #[inline(always)]
    pub fn with_capacity(alloc: Global, room: usize) -> Result<Text, AllocError>
        ensures { IfOk result (λ t. t ≡ []) }
    {
        let holding = if room <= SHORT {
            Holding::Short(ArrayString::new())
        } else {
            Holding::Long(String::with_capacity(alloc, room)?)
        };
        Ok(Text { holding })
    }

    /// Appends a piece. Where no memory is left it fails, and the text is as before. A short text that stays short takes none.
    #[inline(always)]
    pub fn push_str(&mut self, alloc: Global, piece: &str) -> Result<(), AllocError>
        ensures ok { OnOk result (self.new ≡ self.old ++ piece.now) }
        ensures err { OnErr result (self.new ≡ self.old) }
    {
        match &mut self.holding {
            Holding::Short(short) if piece.len() <= short.remaining_capacity() => {
                short.push_str(piece);
                Ok(())
            }
            Holding::Long(long) => long.push_str(piece),
            Holding::Short(_) => self.outgrow(alloc, piece),
        }
    }

    /// Appends a piece, in memory of its own with room for a few bytes more.
    #[cold]
    #[inline(never)]
    fn outgrow(&mut self, alloc: Global, piece: &str) -> Result<(), AllocError>
        ensures ok { OnOk result (self.new ≡ self.old ++ piece.now) }
        ensures err { OnErr result (self.new ≡ self.old) }
    {
        let front = self.as_str();
        let room = (front.len() + piece.len()).saturating_add(SHORT);
        let mut string = String::with_capacity(alloc, room)?;
        string.push_str(front)?;
        string.push_str(piece)?;
        self.holding = Holding::Long(string);
        Ok(())
    }
}
