//! What a register shows of a posting's transaction.
use hl_base::Text;
use std::marker::Model;

/// What a register shows of a posting's transaction: the line of its head, and its description.
/// Contracts see a `Headed`.
#[derive(Drop)]
pub struct Head<'a> {
    pub line: u64,
    pub description: &'a Text,
}

impl<'a> Model for Head<'a> {
    ghost use Rattle.register_report.specs.Heads.{Headed};

    ghost Value = { Headed };

    ghost view = { λ h. record { line = h.line; description = h.description.now } };
}
