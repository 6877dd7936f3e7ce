// A record in numbers as a command.
ghost use Rattle.std.specs.Prelude.{◌≡◌, IfOk};
ghost use Rattle.geo_text.specs.Reading.{IsWellSized};
ghost use Rattle.geo_script.specs.InNumbers.{record_in_numbers, two_in, worded_in};

use exact_plane::Memory;
use geo_text::{Bad, Command, Limits, Version, Word, command_in_numbers};
use std::alloc::Global;

// The command that a record in numbers is in a script of this version, where that was known before it or not; or why it is none.
pub fn command(
    alloc: Global,
    version: Version,
    known: bool,
    word: u8,
    numbers: &[i64],
) -> Result<Result<Command, Bad>, Memory>
    ensures command { IfOk result (λ reading. reading ≡ record_in_numbers version known word numbers.now) }
    ensures well_sized { IfOk result (λ reading. IfOk reading IsWellSized) }
{
    match Word::of(word) {
        Some(word) => of_word(alloc, version, known, word, numbers),
        None => Ok(Err(Bad::Word)),
    }
}

// The same, by the word.
fn of_word(
    alloc: Global,
    version: Version,
    known: bool,
    word: Word,
    numbers: &[i64],
) -> Result<Result<Command, Bad>, Memory>
    ensures command { IfOk result (λ reading. reading ≡ worded_in version known numbers.now word) }
    ensures well_sized { IfOk result (λ reading. IfOk reading IsWellSized) }
{
    match word {
        Word::Two => Ok(two(known, numbers)),
        _ => command_in_numbers(alloc, &Limits::of(version), word, numbers),
    }
}

// Version 2, where no record came before.
fn two(known: bool, numbers: &[i64]) -> Result<Command, Bad>
    ensures { result ≡ two_in known numbers.now }
{
    if !known && numbers.is_empty() {
        Ok(Command::Two)
    } else {
        Err(Bad::Word)
    }
}
