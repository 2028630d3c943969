//! The open records of a file.
ghost use Rattle.std.specs.Prelude.{◌≡◌, ◌≤◌, ◌+◌, length, take, drop};
ghost use Rattle.std.specs.Int.{w64, from_le_bytes};
ghost use Rattle.text_store.specs.Reads.{IsNext};

/// An open record: the place of its gate in the file, its kind, and the place and the length of its payload.
#[derive(Clone, Copy, Debug)]
pub struct Record {
    pub at: usize,
    pub kind: u8,
    pub payload: usize,
    pub len: usize,
}

/// The record whose gate is at a place, if it is open.
pub fn record_at(file: &[u8], at: usize) -> Option<Record>
    ensures { IsNext file.now at result }
{
    if file.len().saturating_sub(at) < 11 {
        return None;
    }
    if file[at] != 1 {
        return None;
    }
    let len = number_at(file, at + 2) as usize;
    if len >= file.len() - at - 10 {
        return None;
    }
    Some(Record {
        at,
        kind: file[at + 1],
        payload: at + 10,
        len,
    })
}

/// The number in eight bytes, low byte first.
pub fn number_at(file: &[u8], at: usize) -> u64
    requires { at + 8 ≤ length file.now }
    ensures { result ≡ from_le_bytes w64 (take 8 (drop at file.now)) }
{
    let mut bytes = [0u8; 8];
    bytes.copy_from_slice(&file[at..at + 8]);
    u64::from_le_bytes(bytes)
}
