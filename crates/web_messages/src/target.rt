//! Where in the first line of a head some bytes end.
ghost use Rattle.std.specs.Prelude.{◌≡◌, true, false, IsTrue};
ghost use Rattle.httparse.specs.Grammar.{is_token_byte};
ghost use Rattle.web_messages.specs.Targets.{next_place, place_from, from_start, from_method, is_target, IsInTarget};
ghost use Rattle.web_messages.specs.declared.target.Place.TheVariants.{Start, Past};

/// Where in the first line of a head some bytes end.
#[derive(Clone, Copy, Debug, PartialEq, Eq)]
pub enum Place {
    /// At the start of a line that may be empty.
    Start,
    /// After a carriage return that began a line.
    Return,
    /// Inside the method.
    Method,
    /// Inside the target.
    Target,
    /// Past the target, or where no head can be.
    Past,
}

/// Whether a byte may stand in a method.
#[tactic(auto, unfolding(httparse::specs::Grammar::is_token_byte))]
fn is_token(b: u8) -> bool
    ensures { result ≡ is_token_byte b }
{
    b.is_ascii_alphanumeric() || b"!#$%&'*+-.^_`|~".contains(&b)
}

/// Where a byte leads from the start of a line.
fn after_start(b: u8) -> Place
    ensures { result ≡ from_start b }
{
    if b == b'\n' {
        Place::Start
    } else if b == b'\r' {
        Place::Return
    } else if is_token(b) {
        Place::Method
    } else {
        Place::Past
    }
}

/// Where a byte leads from a method.
fn after_method(b: u8) -> Place
    ensures { result ≡ from_method b }
{
    if is_token(b) {
        Place::Method
    } else if b == b' ' {
        Place::Target
    } else {
        Place::Past
    }
}

/// Where a byte leads.
fn after(place: Place, b: u8) -> Place
    ensures { result ≡ next_place place b }
{
    match place {
        Place::Start => after_start(b),
        Place::Return if b == b'\n' => Place::Start,
        Place::Return => Place::Past,
        Place::Method => after_method(b),
        Place::Target if b == b' ' || b == b'\n' => Place::Past,
        Place::Target => Place::Target,
        Place::Past => Place::Past,
    }
}

/// Where some bytes end.
pub fn place_of(bytes: &[u8]) -> Place
    ensures { result ≡ place_from Start bytes.now }
{
    bytes.iter().fold(Place::Start, |place, b| after(place, *b))
}

/// Whether a place is inside a target.
fn is_target(place: Place) -> bool
    ensures { result ≡ is_target place }
{
    matches!(place, Place::Target)
}

/// Whether some bytes end inside a target.
pub fn is_inside_target(bytes: &[u8]) -> bool
    ensures inside { result ≡ true → IsInTarget bytes.now }
    ensures outside { result ≡ false → IsInTarget bytes.now → ⊥ }
{
    is_target(place_of(bytes))
}

/// Whether some bytes end past the target, or where no head can be.
pub fn is_past_target(bytes: &[u8]) -> bool
    ensures past { IsTrue result → place_from Start bytes.now ≡ Past }
    ensures found { place_from Start bytes.now ≡ Past → IsTrue result }
{
    matches!(place_of(bytes), Place::Past)
}
