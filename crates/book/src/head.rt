// The head of the book: ten words at the edge, a value inside.
ghost use Rattle.std.specs.Prelude.{◌≡◌, ◌+◌, ◌<◌, get_or, set};
ghost use Rattle.ldc.specs.Layout.{mark_of, level_count, length_in, length_word};
ghost use Rattle.book.specs.Head.{head_words, the_mark, mark_in, marked};

use coding::key::Key;

// The words of the head.
pub const HEAD_WORDS: usize = 10;

pub type HeadWords = [u64; HEAD_WORDS];

// Where the words stand: threshold, cursor, flag and key of the marks of levels 1 and 2, and the lengths of the four lists.
pub const THRESHOLD: usize = 0;

pub const CURSOR: usize = 1;

pub const FLAG1: usize = 2;

pub const KEY1: usize = 3;

pub const FLAG2: usize = 4;

pub const KEY2: usize = 5;

pub const LENGTHS: usize = 6;

const LENGTH1: usize = LENGTHS + 1;

const LENGTH2: usize = LENGTHS + 2;

const LENGTH3: usize = LENGTHS + 3;

// Where the next place is taken and the next table chosen: the cursor, and flag and key of the marks of levels 1 and 2. A mark's flag is 1 if
// there is a key, 0 if none. It stays a number beside the key, and no Option: what flags and keys are lent is kept as it is (`read`).
#[derive(Clone, Copy)]
pub struct Position {
    pub cursor: usize,
    pub flag1: u64,
    pub key1: Key,
    pub flag2: u64,
    pub key2: Key,
}

#[derive(Clone, Copy)]
pub struct Head {
    pub threshold: u64,
    pub position: Position,
    pub length0: usize,
    pub length1: usize,
    pub length2: usize,
    pub length3: usize,
}

// The mark of a flag and a key.
#[tactic(auto, unfolding(ldc::specs::Layout::mark_of))]
fn mark_with(flag: u64, key: Key) -> Option<Key>
    ensures { the_mark result ≡ mark_of flag key.value }
{
    if flag == 0 { None } else { Some(key) }
}

// The head that ten words say.
pub fn read(words: HeadWords) -> Head
    ensures { head_words result ≡ words }
{
    Head {
        threshold: words[THRESHOLD],
        position: Position {
            cursor: words[CURSOR] as usize,
            flag1: words[FLAG1],
            key1: Key { value: words[KEY1] },
            flag2: words[FLAG2],
            key2: Key { value: words[KEY2] },
        },
        length0: words[LENGTHS] as usize,
        length1: words[LENGTH1] as usize,
        length2: words[LENGTH2] as usize,
        length3: words[LENGTH3] as usize,
    }
}

impl Head {
    // Writes the head into ten words.
    pub fn write(self, words: &mut HeadWords)
        ensures { words.new ≡ head_words self }
    {
        let at = self.position;
        *words = [
            self.threshold,
            at.cursor as u64,
            at.flag1,
            at.key1.value,
            at.flag2,
            at.key2.value,
            self.length0 as u64,
            self.length1 as u64,
            self.length2 as u64,
            self.length3 as u64,
        ];
    }

    // How many items a level's list has.
    pub fn length_of(self, level: usize) -> usize
        requires { level < level_count }
        ensures { result ≡ length_in (head_words self) level }
    {
        match level {
            0 => self.length0,
            1 => self.length1,
            2 => self.length2,
            _ => self.length3,
        }
    }

    // The same with another length of a level's list.
    pub fn with_length(mut self, level: usize, n: usize) -> Head
        requires { level < level_count }
        ensures { head_words result ≡ set (head_words self) (length_word level) n }
    {
        match level {
            0 => self.length0 = n,
            1 => self.length1 = n,
            2 => self.length2 = n,
            _ => self.length3 = n,
        }
        self
    }

    // The mark of a level; levels 0 and 3 have none.
    #[tactic(auto, unfolding(crate::specs::Head::mark_in))]
    pub fn mark_of(self, level: usize) -> Option<Key>
        ensures { the_mark result ≡ mark_in (head_words self) level }
    {
        let at = self.position;
        match level {
            1 => mark_with(at.flag1, at.key1),
            2 => mark_with(at.flag2, at.key2),
            _ => None,
        }
    }

    // The same with a mark of level 1 or 2 at this key; level 0 has none.
    #[tactic(auto, unfolding(crate::specs::Head::marked))]
    pub fn with_mark(mut self, level: usize, key: Key) -> Head
        requires { level < 3 }
        ensures { head_words result ≡ marked level key.value (head_words self) }
    {
        match level {
            1 => {
                self.position.flag1 = 1;
                self.position.key1 = key;
            }
            2 => {
                self.position.flag2 = 1;
                self.position.key2 = key;
            }
            _ => {}
        }
        self
    }
}
