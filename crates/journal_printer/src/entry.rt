//! Transactions as entries of a text.
ghost use Rattle.std.specs.Prelude.{◌≡◌, IfOk};
ghost use Rattle.journal_printer.specs.declared.detail.Detail.TheVariants as detailed;
ghost use Rattle.journal_printer.specs.Entries.{entry_shape};
ghost use Rattle.journal_printer.specs.Layout.{txn_text};

use crate::detail::Detail;
use crate::print::push_txn;
use crate::shapes::Shapes;
use book::{Amount, Txn, Written};
use entry_reader::Context;
use hl_base::{Bytes, Memory};
use std::alloc::Global;

/// Each amount as it reads in a context: on its own side, without groups, and with the decimal mark that is decided for
/// its symbol, else a point.
impl Shapes for Context {
    ghost shape_of = { λ context. entry_shape context };

    fn shape_of(&self, amount: &Amount) -> Written {
        let decided = self.decided_mark(amount.symbol.as_bytes());
        Written {
            mark: Some(decided.unwrap_or(b'.')),
            group: None,
            ..amount.shape
        }
    }
}

/// The lines of a transaction as an entry of a text, to be read in a context: laid out as `print_txn` does it, its
/// amounts without group marks and with the decimal mark that the context decides for the symbol, else a point. What
/// balancing found isn't shown. Fails only for want of memory.
pub fn print_entry(alloc: Global, txn: &Txn, context: &Context) -> Result<Bytes, Memory>
    ensures { IfOk result (λ text.
        text ≡ txn_text (entry_shape context.now) detailed.Written txn.now) }
{
    let mut out = Vec::new(alloc);
    push_txn(alloc, &mut out, context, Detail::Written, txn)?;
    Ok(Bytes::from_vec(out))
}
