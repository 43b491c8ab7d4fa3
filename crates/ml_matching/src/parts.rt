//! What is read off a value that a pattern looks into.
ghost use Rattle.std.specs.Prelude.{◌≡◌};
ghost use Rattle.std.specs.Option.{option_map};
ghost use Rattle.ml_meaning.specs.Arithmetic.{wrapped};
ghost use Rattle.ml_meaning.specs.Patterns.{fits_if, cell_of, constant_fits, number_fits, character_fits, text_fits};
ghost use Rattle.ml_values.specs.Shown.{value, values_list};
ghost use Rattle.ml_matching.specs.Fitting.{parts_of, sole};

use ml_values::{Word, Words};
use ml_words::{text_order, wrapped};
use std::cmp::Ordering;

/// The parts of a block of this place.
pub fn block<'a>(word: Word<'a>, place: Option<u32>) -> Option<Words<'a>>
    ensures { option_map values_list result ≡ parts_of place (value word.entry) }
{
    match word {
        Word::Block(at, parts) => if Some(at) == place { Some(parts) } else { None },
        _ => None,
    }
}

/// The head and the tail of a list that is not empty.
pub fn cell<'a>(word: Word<'a>) -> Option<(Word<'a>, Word<'a>)>
    ensures { option_map (λ c. (value c.0, value c.1)) result ≡ cell_of (value word.entry) }
{
    match block(word, Some(1)) {
        Some(Words::And(head)) => match head.rest {
            Words::And(tail) => match tail.rest {
                Words::Empty => Some((head.first, tail.first)),
                Words::And(_) => None,
            },
            Words::Empty => None,
        },
        _ => None,
    }
}

/// The one value of a list of one.
pub fn only<'a>(words: Words<'a>) -> Option<Word<'a>>
    ensures { option_map value result ≡ sole (values_list words.entry) }
{
    match words {
        Words::And(pair) => match pair.rest {
            Words::Empty => Some(pair.first),
            Words::And(_) => None,
        },
        Words::Empty => None,
    }
}

/// Whether a value is the constant of this place.
pub fn is_constant(word: Word, place: Option<u32>) -> bool
    ensures { fits_if result ≡ constant_fits place (value word.entry) }
{
    match word {
        Word::Constant(at) => Some(at) == place,
        _ => false,
    }
}

/// Whether a value is this number, brought into 63 bits.
pub fn is_number(word: Word, number: i64) -> bool
    ensures { fits_if result ≡ number_fits (wrapped number) (value word.entry) }
{
    match word {
        Word::Number(z) => z == wrapped(number as i128),
        _ => false,
    }
}

/// Whether a value is this character.
pub fn is_character(word: Word, byte: u8) -> bool
    ensures { fits_if result ≡ character_fits byte (value word.entry) }
{
    match word {
        Word::Character(c) => c == byte,
        _ => false,
    }
}

/// Whether a value is this text.
pub fn is_text(word: Word, bytes: &[u8]) -> bool
    ensures { fits_if result ≡ text_fits bytes.now (value word.entry) }
{
    match word {
        Word::Bytes(text) => text_order(text, bytes) == Ordering::Equal,
        _ => false,
    }
}
