//! The laws that a stream has one reading, and that this leaves no choice.
ghost use Rattle.std.specs.Prelude.{◌≡◌, ℕ, List};
ghost use Rattle.web_messages.specs.Streams.{Message, Ending, Messages};

/// A stream of bytes has one reading: its messages, what follows them, and the way in which it ends are determined.
/// It does nothing; its contract is the law.
pub fn one_reading()
    ensures { (bytes : List ℕ) (before other : List Message) (rest other_rest : List ℕ)
        (ending other_ending : Ending)
        → Messages bytes before rest ending → Messages bytes other other_rest other_ending
        → (before ≡ other) × ((rest ≡ other_rest) × (ending ≡ other_ending)) }
{}

/// Each stream of bytes has a reading, whatever bytes it has: messages, what follows them, and a way in which it ends. With
/// `one_reading` these are functions of the bytes. It does nothing; its contract is the law.
pub fn each_stream_reads()
    ensures { (bytes : List ℕ) → (before : List Message) × (rest : List ℕ) × (ending : Ending)
        × Messages bytes before rest ending }
{}
