// The words of records.
ghost use Rattle.std.specs.List.{All};
ghost use Rattle.std.specs.Prelude.{◌≡◌, ◌≢◌, ◌≤◌, IfOk, IfSome, Some, length};
ghost use Rattle.plane.specs.Point.{IsInLimit};
ghost use Rattle.geo_text.specs.Reading.{command_with};
ghost use Rattle.geo_text.specs.Words.{IsCountOf, takes_of, text_of, word_named, word_of};

use crate::command::Command;
use crate::coordinates::{point_from, points};
use crate::limits::Limits;
use crate::takes::Takes;
use exact_plane::Memory;
use plane::MAX_HULL;
use std::alloc::Global;

/// What a record asks for, in the order of `Command`. No text names version 2, since the first record of a script alone asks for it.
#[derive(Clone, Copy)]
pub enum Word {
    Polygon,
    Inside,
    Check,
    Path,
    Tree,
    Reach,
    See,
    Kernel,
    Hull,
    Two,
    Round,
    Guards,
    Pair,
    Sights,
}

impl Word {
    /// The word with a number. They are numbered from 0 on.
    pub fn of(number: u8) -> Option<Word>
        ensures { result ≡ word_of number }
    {
        match number {
            0 => Some(Word::Polygon),
            1 => Some(Word::Inside),
            2 => Some(Word::Check),
            3 => Some(Word::Path),
            4 => Some(Word::Tree),
            5 => Some(Word::Reach),
            6 => Some(Word::See),
            7 => Some(Word::Kernel),
            8 => Some(Word::Hull),
            9 => Some(Word::Two),
            10 => Some(Word::Round),
            11 => Some(Word::Guards),
            12 => Some(Word::Pair),
            13 => Some(Word::Sights),
            _ => None,
        }
    }

    /// The word with a text.
    pub fn named(text: &[u8]) -> Option<Word>
        ensures word { result ≡ word_named text.now }
        ensures text { IfSome result (λ word. text.now ≡ text_of word) }
    {
        match text {
            b"polygon" => Some(Word::Polygon),
            b"inside" => Some(Word::Inside),
            b"check" => Some(Word::Check),
            b"path" => Some(Word::Path),
            b"tree" => Some(Word::Tree),
            b"reach" => Some(Word::Reach),
            b"see" => Some(Word::See),
            b"kernel" => Some(Word::Kernel),
            b"hull" => Some(Word::Hull),
            b"round" => Some(Word::Round),
            b"guards" => Some(Word::Guards),
            b"pair" => Some(Word::Pair),
            b"sights" => Some(Word::Sights),
            _ => None,
        }
    }

    /// The text of the word. That of version 2 is no word by itself.
    pub fn text(self) -> &'static str
        ensures text { result.now ≡ text_of self }
        ensures named { self ≢ Word.Two → word_named result.now ≡ Some self }
        ensures short { length result.now ≤ 16 }
    {
        match self {
            Word::Polygon => "polygon",
            Word::Inside => "inside",
            Word::Check => "check",
            Word::Path => "path",
            Word::Tree => "tree",
            Word::Reach => "reach",
            Word::See => "see",
            Word::Kernel => "kernel",
            Word::Hull => "hull",
            Word::Two => "geo",
            Word::Round => "round",
            Word::Guards => "guards",
            Word::Pair => "pair",
            Word::Sights => "sights",
        }
    }

    // What the word takes.
    pub(crate) fn takes(self, limits: &Limits) -> Takes
        ensures { result ≡ takes_of limits.now self }
    {
        match self {
            Word::Polygon => Takes::Points {
                least: 3,
                most: limits.corners,
            },
            Word::Check => Takes::Points {
                least: 1,
                most: limits.chain,
            },
            Word::Hull | Word::Round => Takes::Points {
                least: 1,
                most: MAX_HULL,
            },
            Word::Path => Takes::Numbers(4),
            Word::Inside | Word::Tree | Word::Reach | Word::See | Word::Pair => Takes::Numbers(2),
            Word::Kernel | Word::Two | Word::Guards | Word::Sights => Takes::Numbers(0),
        }
    }

    /// The command of the word and numbers, which are as many as it takes.
    pub fn command(self, alloc: Global, numbers: &[i64]) -> Result<Command, Memory>
        requires right { IsCountOf self (length numbers.now) }
        requires small { All IsInLimit numbers.now }
        ensures { IfOk result (λ made. made ≡ command_with self numbers.now) }
    {
        match self {
            Word::Polygon => Ok(Command::Polygon(points(alloc, numbers)?)),
            Word::Inside => Ok(Command::Inside(point_from(numbers, 0))),
            Word::Check => Ok(Command::Check(points(alloc, numbers)?)),
            Word::Path => Ok(Command::Path(point_from(numbers, 0), point_from(numbers, 2))),
            Word::Tree => Ok(Command::Tree(point_from(numbers, 0))),
            Word::Reach => Ok(Command::Reach(point_from(numbers, 0))),
            Word::See => Ok(Command::See(point_from(numbers, 0))),
            Word::Kernel => Ok(Command::Kernel),
            Word::Hull => Ok(Command::Hull(points(alloc, numbers)?)),
            Word::Two => Ok(Command::Two),
            Word::Round => Ok(Command::Round(points(alloc, numbers)?)),
            Word::Guards => Ok(Command::Guards),
            Word::Pair => Ok(Command::Pair(numbers[0], numbers[1])),
            Word::Sights => Ok(Command::Sights),
        }
    }
}
