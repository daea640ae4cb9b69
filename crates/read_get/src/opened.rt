// What a walk through tables found, and what it opened for that. It is handed up from call to call, so its fields are plain numbers: an enum in
// it would be copied byte by byte.
ghost use Rattle.std.specs.Prelude.{◌≡◌, false, ◌+◌, ◌<◌, ◌^◌};
ghost use Rattle.read_get.specs.Opens.{joined};

// Was an entry found, and where does it stand: place and position; how many tables were opened up to it, and how many bits are set in their
// summaries.
#[derive(Clone, Copy)]
pub struct Opened {
    pub found: bool,
    pub place: usize,
    pub at: usize,
    pub tables: usize,
    pub bits: usize,
}

// Nothing found, nothing opened.
pub fn nothing() -> Opened
    ensures { (result.found ≡ false) × ((result.tables ≡ 0) × (result.bits ≡ 0)) }
{
    Opened {
        found: false,
        place: 0,
        at: 0,
        tables: 0,
        bits: 0,
    }
}

// One walk that found nothing, and then another.
pub fn then(first: Opened, next: Opened) -> Opened
    requires { (first.tables + next.tables < 2 ^ 64) × (first.bits + next.bits < 2 ^ 64) }
    ensures { result ≡ joined first next }
{
    Opened {
        found: next.found,
        place: next.place,
        at: next.at,
        tables: first.tables + next.tables,
        bits: first.bits + next.bits,
    }
}
