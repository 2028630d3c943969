//! The text of a register.
ghost use Rattle.std.specs.Prelude.{◌≡◌, ◌-◌, ◌++◌, [], None, length, IfOk, OnOk, IfErr};
ghost use Rattle.std.specs.List.{zip};
ghost use Rattle.book.specs.Styles.{style_in};
ghost use Rattle.report_cells.specs.Bounds.{first_out};
ghost use Rattle.report_cells.specs.Faults.{IsFault};
ghost use Rattle.report_cells.specs.Kept.{ShareFits, with_share};
ghost use Rattle.register_report.specs.Lines.{register_text};
ghost use Rattle.register_report.specs.Summed.{SumsFit, kept_lines, summed};

use crate::head::Head;
use crate::lines::{continues, push_posting, push_sums, stamp};
use book::{Mixed, Styles};
use hl_base::{Bytes, Memory};
use report_cells::{ReportFault, Taking, add_share, check_range};
use std::alloc::Global;

/// The lines of a register: of each taking that has a head the day in 10 columns, a space, the description in 20, two
/// spaces, the account in 21, two spaces, the amount right aligned in 11, two spaces, and the sum of all takings up to
/// it right aligned in 11. The heads are those of the last takings, so those before them count for the sums alone. Day
/// and description are blank where the line before is of the same transaction and day, further symbols of a sum stand in
/// lines of their own, a text that is too wide is cut and ends with `..`, and a number stands whole. `Range` names the
/// least symbol whose amounts are too large.
pub fn register_text(
    alloc: Global,
    takings: &[Taking],
    heads: &[Head],
    styles: &Styles,
) -> Result<Bytes, ReportFault>
    ensures text { IfOk result (λ text.
        text ≡ register_text (style_in styles.now) takings.now heads.now) }
    ensures within { OnOk result (first_out takings.now ≡ None) }
    ensures fault { IfErr result (IsFault takings.now) }
{
    check_range(alloc, takings)?;
    let (earlier, shown) = takings.split_at(opening(takings, heads));
    let mut sums = sums_of(alloc, earlier)?;
    let mut out = Vec::new(alloc);
    push_postings(alloc, &mut out, &mut sums, heads, shown, styles)?;
    Ok(Bytes::from_vec(out))
}

/// How many takings come before those that have heads.
fn opening(takings: &[Taking], heads: &[Head]) -> usize
    ensures { result ≡ length takings.now - length heads.now }
{
    takings.len().saturating_sub(heads.len())
}

/// Adds what a posting brings to some sums.
fn add_taking(alloc: Global, sums: &mut Mixed, taking: &Taking) -> Result<(), Memory>
    requires { ShareFits taking.now.amount sums.old }
    ensures { OnOk result (sums.new ≡ with_share taking.now.amount sums.old) }
{
    add_share(alloc, sums, &taking.amount)
}

/// The sums of some takings.
fn sums_of(alloc: Global, takings: &[Taking]) -> Result<Mixed, Memory>
    requires { SumsFit [] takings.now }
    ensures { IfOk result (λ sums. sums ≡ summed [] takings.now) }
{
    let mut sums = Mixed::new(alloc);
    for taking in takings {
        add_taking(alloc, &mut sums, taking)?;
    }
    Ok(sums)
}

/// Appends the lines of postings, whose sums begin with those that are handed in.
fn push_postings(
    alloc: Global,
    out: &mut Vec<u8>,
    sums: &mut Mixed,
    heads: &[Head],
    shown: &[Taking],
    styles: &Styles,
) -> Result<(), Memory>
    requires { SumsFit sums.old shown.now }
    ensures { OnOk result (out.new.items
        ≡ out.old.items
        ++ kept_lines (style_in styles.now) sums.old None (zip heads.now shown.now)) }
{
    let mut last = None;
    for at in 0..heads.len().min(shown.len()) {
        let head = &heads[at];
        let taking = &shown[at];
        add_taking(alloc, sums, taking)?;
        push_posting(
            alloc,
            out,
            continues(last, head, taking),
            head,
            taking,
            styles,
        )?;
        push_sums(alloc, out, sums.entries(), styles)?;
        last = Some(stamp(head, taking));
    }
    Ok(())
}
