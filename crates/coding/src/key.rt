// The key of an entry: 64 bits, line number (24 bits) times 2^40 plus distance in millimetres (40 bits).
//
// The store compares whole keys, so the least key and the greatest are ordinary ones.
ghost use Rattle.std.specs.Prelude.{◌≡◌, ◌<◌};
ghost use Rattle.coding.specs.Key.{lines, distances, key_on, key_of, line_of, distance_of};

// As many line numbers as 24 bits tell apart.
pub const LINES: u32 = 16777216;

// As many distances as 40 bits tell apart.
pub const DISTANCES: u64 = 1099511627776;

// A key is the number and nothing else, so that every 64-bit number is one. Keys are equal and ordered as their numbers are.
#[derive(Clone, Copy, PartialEq, Eq, PartialOrd, Ord)]
pub struct Key {
    pub value: u64,
}

impl Key {
    // The least key of all.
    pub const LEAST: Key = Key { value: 0 };

    // The greatest key of all.
    pub const GREATEST: Key = Key {
        value: 18446744073709551615,
    };

    // The key of a place in a line, distance in millimetres; none where the line has more than 24 bits, or the distance more than 40.
    #[tactic(auto, unfolding(crate::specs::Key::key_of))]
    pub fn of(line: u32, distance: u64) -> Option<Key>
        ensures { result ≡ key_of line distance }
    {
        if line < LINES && distance < DISTANCES {
            Some(Key::on(line, distance))
        } else {
            None
        }
    }

    // The key of a place in a line, distance in millimetres, where both fit.
    pub fn on(line: u32, distance: u64) -> Key
        requires { (line < lines) × (distance < distances) }
        ensures { result ≡ key_on line distance }
    {
        Key {
            value: (line as u64) * DISTANCES + distance,
        }
    }

    // The line number that a key holds.
    pub fn line(self) -> u32
        ensures { result ≡ line_of self.value }
    {
        (self.value / DISTANCES) as u32
    }

    // The distance in millimetres that a key holds.
    pub fn distance(self) -> u64
        ensures { result ≡ distance_of self.value }
    {
        self.value % DISTANCES
    }
}
