//! The bytes of a text's items, one after another.
ghost use Rattle.std.specs.Prelude.{◌≡◌, take, drop};

use book::Placed;

/// The bytes of a text's items, one after another: put one behind the other they are the text.
#[derive(Clone, Copy)]
pub struct Pieces<'a> {
    text: &'a [u8],
    items: &'a [Placed],
}

impl<'a> Pieces<'a> {
    ghost use Rattle.std.specs.Prelude.{◌≡◌, map};
    ghost use Rattle.std.specs.List.{concat};
    ghost use Rattle.hl_base.specs.Items.{items_of};
    ghost use Rattle.text_pieces.specs.ItemBytes.{bytes_of, pieces_left};

    /// Those of a text that is cut into the pieces of these items.
    pub fn of(text: &'a [u8], items: &'a [Placed]) -> Pieces<'a>
        requires { map (λ p. p.piece) items.now ≡ items_of text.now }
        ensures each { pieces_left result ≡ map (bytes_of text.now) (items_of text.now) }
        ensures whole { concat (pieces_left result) ≡ text.now }
    {
        Pieces { text, items }
    }
}

impl<'a> Iterator for Pieces<'a> {
    ghost use Rattle.std.specs.Iterator.{YieldsFirstRef, item_count};
    ghost use Rattle.text_pieces.specs.ItemBytes.{pieces_left};

    type Item = &'a [u8];

    ghost next_gives = { YieldsFirstRef pieces_left };

    ghost remaining = { item_count pieces_left };

    fn next(&mut self) -> Option<&'a [u8]> {
        let (first, others) = self.items.split_first()?;
        let (bytes, behind) = front(self.text, first.piece.len);
        self.items = others;
        self.text = behind;
        Some(bytes)
    }
}

/// The first bytes of a text, at most so many, and those behind them.
fn front(text: &[u8], len: u64) -> (&[u8], &[u8])
    ensures bytes { result.0.now ≡ take len text.now }
    ensures behind { result.1.now ≡ drop len text.now }
{
    text.split_at(len.min(text.len() as u64) as usize)
}
