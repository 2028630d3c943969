//! Files that are read whole.
ghost use Rattle.std.specs.Prelude.{◌≡◌, ◌≢◌, ◌≤◌, ◌<◌, ◌^◌, ◌-◌, ℕ, List, Some, None, Err, IfErr, IsTrue, length};
ghost use Rattle.hl_base.specs.Causes.{Rose};
ghost use Rattle.hl_base.specs.Shelf.{Keeps};
ghost use Rattle.command_line.specs.Answers.{FindsText, IsOfFile};
ghost use Rattle.command_line.specs.Files.{LoadsFile};
ghost use Rattle.command_line.specs.Sources.{file_within};

use error_lines::{absent, past_limit};
use hl_base::{Bytes, Shelf, ShelfFault, Text};
use refusals::Refusal;
use std::alloc::Global;

/// The refusal of a file with more bytes than it may have.
fn too_long(alloc: Global, most: u64) -> Refusal
    requires { most < 2 ^ 64 - 1 }
    ensures refused { (name bytes : List ℕ) → most < length bytes
        → FindsText (Err result) (file_within most name (Some bytes)) }
    ensures kind { IsOfFile result }
    ensures read { result ≢ Refusal.ReadFault }
{
    match past_limit(alloc, most + 1, most) {
        Ok(line) => Refusal::Line { status: 7, line },
        Err(_) => Refusal::Memory,
    }
}

/// The refusal of a name under which there is no file.
fn no_file(alloc: Global, name: &Text) -> Refusal
    ensures refused { (most : ℕ) → FindsText (Err result) (file_within most name.now None) }
    ensures kind { IsOfFile result }
    ensures read { result ≢ Refusal.ReadFault }
{
    match absent(alloc, name.as_str()) {
        Ok(line) => Refusal::Line { status: 8, line },
        Err(_) => Refusal::Memory,
    }
}

/// The bytes of a file, by each of the calls' parts.
fn load_bytes<S: Shelf>(
    alloc: Global,
    name: &Text,
    most: u64,
    shelf: &mut S,
) -> Result<Bytes, Refusal>
    requires { most < 2 ^ 64 - 1 }
    ensures found { IsTrue ((S.tells shelf.old).files)
        → FindsText result (file_within most name.now (S.file shelf.old name.now)) }
    ensures kind { IfErr result IsOfFile }
    ensures rose { result ≡ Err Refusal.ReadFault → Rose (S.faults shelf.old) (S.faults shelf.new) }
    ensures named { result ≡ Err Refusal.ReadFault → S.last_failed shelf.new ≡ Some name.now }
    ensures same { result ≢ Err Refusal.ReadFault → S.faults shelf.new ≡ S.faults shelf.old }
    ensures same_name { result ≢ Err Refusal.ReadFault
        → S.last_failed shelf.new ≡ S.last_failed shelf.old }
    ensures later { S.faults shelf.old ≤ S.faults shelf.new }
    ensures disks { S.disk_faults shelf.new ≡ S.disk_faults shelf.old }
    ensures keeps { Keeps S.file S.may_leave S.left_since S.HasPlace shelf.old shelf.new (λ _.
        Unit {0}) }
    ensures tells { S.tells shelf.new ≡ S.tells shelf.old }
    ensures unfailed { S.IsSound shelf.old → result ≢ Err Refusal.ReadFault }
    ensures sound { S.IsSound shelf.old → S.IsSound shelf.new }
{
    match shelf.load(alloc, name, most) {
        Ok(bytes) => Ok(bytes),
        Err(ShelfFault::TooLong { .. }) => Err(too_long(alloc, most)),
        Err(ShelfFault::Absent) => Err(no_file(alloc, name)),
        Err(ShelfFault::Failed) => Err(Refusal::ReadFault),
        Err(ShelfFault::Memory) => Err(Refusal::Memory),
    }
}

/// The bytes of a file, at most so many. All names keep what stands under them.
pub(crate) fn load_file<S: Shelf>(
    alloc: Global,
    name: &Text,
    most: u64,
    shelf: &mut S,
) -> Result<Bytes, Refusal>
    requires { most < 2 ^ 64 - 1 }
    ensures { LoadsFile S.Shelf most name.now shelf.old shelf.new result }
{
    load_bytes(alloc, name, most, shelf)
}
