//! The text that a command is over.
ghost use Rattle.std.specs.Prelude.{◌≡◌, ◌≢◌, ◌≤◌, ℕ, List, Some, [], Err, IfOk, IfErr, IfSome, OnOk, IsTrue, None, ◌<◌, length};
ghost use Rattle.hl_base.specs.Causes.{Rose};
ghost use Rattle.hl_base.specs.Limits.{text_limit};
ghost use Rattle.command_line.specs.Answers.{FindsText, IsOfInput};
ghost use Rattle.command_line.specs.Files.{IsFile, ReadsShelf};
ghost use Rattle.command_line.specs.Sources.{within_bytes};
ghost use Rattle.command_line.specs.Runs.{ReadsText};
ghost use Rattle.command_line.specs.Scenes.{SourceIsSound, scene, soundness};

use crate::files::load_file;
use crate::outside::Outside;
use crate::stored::load_store;
use command_words::Origin;
use error_lines::past_limit;
use hl_base::{Bytes, ReadAllFault, Shelf, Sink, Source, TEXT_LIMIT, read_all};
use query::Maker;
use refusals::Refusal;
use std::alloc::Global;

/// The refusal of a text with more bytes than it may have.
fn too_long(alloc: Global) -> Refusal
    ensures refused { (text : List ℕ) → text_limit < length text
        → FindsText (Err result) (within_bytes text) }
    ensures input { IsOfInput result }
    ensures read { result ≢ Refusal.ReadFault }
{
    match past_limit(alloc, TEXT_LIMIT + 1, TEXT_LIMIT) {
        Ok(line) => Refusal::Line { status: 7, line },
        Err(_) => Refusal::Memory,
    }
}

/// The text of the input, which is read to its end.
fn read_input<J: Source>(alloc: Global, input: &mut J) -> Result<Bytes, Refusal>
    ensures found { IfSome (J.left input.old) (λ text. FindsText result (within_bytes text)) }
    ensures kind { IfErr result IsOfInput }
    ensures whole { OnOk result (IfSome (J.left input.old) (λ _. J.left input.new ≡ Some [])) }
    ensures rose { result ≡ Err Refusal.ReadFault → Rose (J.faults input.old) (J.faults input.new) }
    ensures sound { J.IsSound input.old → result ≢ Err Refusal.ReadFault }
{
    match read_all(alloc, input, TEXT_LIMIT) {
        Ok(text) => Ok(text),
        Err(ReadAllFault::TooLong { .. }) => Err(too_long(alloc)),
        Err(ReadAllFault::ReadFault) => Err(Refusal::ReadFault),
        Err(ReadAllFault::Memory) => Err(Refusal::Memory),
    }
}

/// The text of the input, of the file or of the store.
pub fn read_text<J: Source, O: Sink, E: Sink, S: Shelf, M: Maker>(
    alloc: Global,
    origin: &Origin,
    outside: &mut Outside<J, O, E, S, M>,
) -> Result<Bytes, Refusal>
    ensures reads { ReadsText origin.now result
        (scene J.Source O.Sink E.Sink S.Shelf M.Maker outside.old)
        (scene J.Source O.Sink E.Sink S.Shelf M.Maker outside.new) }
    ensures sound { SourceIsSound origin.now (soundness J.Source O.Sink E.Sink S.Shelf outside.old)
        → result ≢ Err Refusal.ReadFault }
    ensures output { outside.new.streams.output ≡ outside.old.streams.output }
    ensures err { outside.new.err ≡ outside.old.err }
    ensures maker { outside.new.maker ≡ outside.old.maker }
    ensures shelf { ReadsShelf S.Shelf text_limit origin.now outside.old.shelf outside.new.shelf
        result }
    ensures file { IsFile origin.now
        → outside.new ≡ record outside.old { shelf = outside.new.shelf } }
{
    match origin {
        Origin::Input => read_input(alloc, &mut outside.streams.input),
        Origin::File(name) => load_file(alloc, name, TEXT_LIMIT, &mut outside.shelf),
        Origin::Store(name) => load_store(alloc, name, &mut outside.shelf),
    }
}
