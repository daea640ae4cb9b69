// Why a call is refused (document 01, "Refused runs and requests"; document 02, note 4), and the number and the letter that a C program is told.
ghost use Rattle.std.specs.Prelude.{◌≡◌};
ghost use Rattle.wire.specs.declared.refusal.Refusal.TheVariants.{Unsound};
ghost use Rattle.wire.specs.Refusal.{rule_letter, refusal_number, refusal_letter, number_of, letter_in};

use super::results;

// The rules of a sound store (document 01, "Sound store"), in the order in which they are asked.
#[derive(Clone, Copy, PartialEq, Eq, Debug)]
pub enum Rule {
    A,
    B,
    C,
    D,
    E,
    F,
    G,
}

// Why a call is refused.
#[derive(Clone, Copy, PartialEq, Eq, Debug)]
pub enum Refusal {
    WrongSizes,
    BadThreshold,
    ShortAnswer,
    BrokenList,
    // The store is not sound: this rule is the first that is broken.
    Unsound(Rule),
    // Opening: bytes not of the form of a saved book.
    NotABook,
    // Opening: an area with fewer places than saved.
    FewerPlaces,
}

impl Rule {
    // Its letter, in ASCII.
    pub fn letter(self) -> u64
        ensures { result ≡ rule_letter self }
    {
        match self {
            Rule::A => 65,
            Rule::B => 66,
            Rule::C => 67,
            Rule::D => 68,
            Rule::E => 69,
            Rule::F => 70,
            Rule::G => 71,
        }
    }
}

impl Refusal {
    // The number of the refusal.
    pub fn number(self) -> u64
        ensures { result ≡ refusal_number self }
    {
        match self {
            Refusal::WrongSizes => results::WRONG_SIZES,
            Refusal::BadThreshold => results::BAD_THRESHOLD,
            Refusal::ShortAnswer => results::SHORT_ANSWER,
            Refusal::BrokenList => results::BROKEN_LIST,
            Refusal::Unsound(_) => results::UNSOUND,
            Refusal::NotABook => results::NOT_A_BOOK,
            Refusal::FewerPlaces => results::FEWER_PLACES,
        }
    }

    // The letter of the first broken rule, which comes with 5; 0 with every other number.
    pub fn letter(self) -> u64
        ensures { result ≡ refusal_letter self }
    {
        match self {
            Refusal::Unsound(rule) => rule.letter(),
            _ => results::NO_LETTER,
        }
    }
}

// An unsound store is refused by its first broken rule.
impl From<Rule> for Refusal {
    ghost from_gives = { λ rule refusal. refusal ≡ Unsound rule };

    fn from(rule: Rule) -> Refusal {
        Refusal::Unsound(rule)
    }
}

// The number of a call that ended so: 0 if it was accepted.
pub fn number_of<T>(ended: &Result<T, Refusal>) -> u64
    ensures { result ≡ number_of ended.now }
{
    match ended {
        Ok(_) => results::ACCEPTED,
        Err(refusal) => refusal.number(),
    }
}

// The letter that comes with it.
pub fn letter_of<T>(ended: &Result<T, Refusal>) -> u64
    ensures { result ≡ letter_in ended.now }
{
    match ended {
        Ok(_) => results::NO_LETTER,
        Err(refusal) => refusal.letter(),
    }
}
