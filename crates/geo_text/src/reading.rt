// A record as a command.
ghost use Rattle.std.specs.Prelude.{◌≡◌, IfOk, length};
ghost use Rattle.geo_text.specs.Capped.{after_word};
ghost use Rattle.geo_text.specs.Limits.{IsLimited};
ghost use Rattle.geo_text.specs.Reading.{IsWellSized, asks_two as is_asked, command_in_numbers as read_in_numbers, command_in_text, command_of};
ghost use Rattle.geo_text.specs.Reading.{command_with, range_fault as fault_of_range, unless};
ghost use Rattle.geo_text.specs.Records.{plain_fields};
ghost use Rattle.geo_text.specs.Words.{IsCountOf};

use crate::command::{Bad, Command};
use crate::coordinates::{range_fault, read_numbers};
use crate::fields::field;
use crate::limits::Limits;
use crate::word::Word;
use csv::ByteRecord;
use exact_plane::Memory;
use std::alloc::Global;

// The record asks for version 2: it has just two fields, the word `geo` and the number 2.
pub fn asks_two(row: &ByteRecord) -> bool
    ensures { result ≡ is_asked (plain_fields row.now) }
{
    row.len() == 2 && field(row, 0) == b"geo".as_slice() && field(row, 1) == b"2".as_slice()
}

// The command that a record is by its word, or why it is none. The numbers of its fields are read into `numbers`.
pub fn command(
    alloc: Global,
    limits: &Limits,
    row: &ByteRecord,
    numbers: &mut Vec<i64>,
) -> Result<Result<Command, Bad>, Memory>
    requires { IsLimited limits.now }
    ensures { IfOk result (λ reading. reading ≡ command_of limits.now (plain_fields row.now)) }
{
    match Word::named(field(row, 0)) {
        Some(word) => in_text(alloc, limits, word, row, numbers),
        None => Ok(Err(Bad::Word)),
    }
}

// The command that a word and the fields after it are, or the first refusal.
fn in_text(
    alloc: Global,
    limits: &Limits,
    word: Word,
    row: &ByteRecord,
    numbers: &mut Vec<i64>,
) -> Result<Result<Command, Bad>, Memory>
    requires { IsLimited limits.now }
    ensures { IfOk result (λ reading. reading ≡ command_in_text limits.now word (after_word row.now)) }
{
    if let Some(fault) = word.takes(limits).fault(row.len().saturating_sub(1)) {
        return Ok(Err(fault));
    }
    match read_numbers(row, numbers)? {
        Ok(()) => within(alloc, limits, word, numbers),
        Err(fault) => Ok(Err(fault)),
    }
}

/// The command that a word and the numbers of its fields are, or the first refusal of a record with these fields. It takes `Word::Two`
/// wherever it is asked. Whether a record came before, after which that is no word, its caller knows, which is `geo_script`.
pub fn command_in_numbers(
    alloc: Global,
    limits: &Limits,
    word: Word,
    numbers: &[i64],
) -> Result<Result<Command, Bad>, Memory>
    requires { IsLimited limits.now }
    ensures command { IfOk result (λ reading. reading ≡ read_in_numbers limits.now word numbers.now) }
    ensures well_sized { IfOk result (λ reading. IfOk reading IsWellSized) }
{
    match word.takes(limits).fault(numbers.len()) {
        Some(fault) => Ok(Err(fault)),
        None => within(alloc, limits, word, numbers),
    }
}

// The command of a word and numbers, which are as many as it takes, or the first number that passes the limit.
fn within(
    alloc: Global,
    limits: &Limits,
    word: Word,
    numbers: &[i64],
) -> Result<Result<Command, Bad>, Memory>
    requires limited { IsLimited limits.now }
    requires right { IsCountOf word (length numbers.now) }
    ensures { IfOk result (λ reading. reading ≡ unless (fault_of_range limits.now.coordinate 1 numbers.now) (command_with word numbers.now)) }
{
    match range_fault(limits.coordinate, numbers) {
        Some(fault) => Ok(Err(fault)),
        None => Ok(Ok(word.command(alloc, numbers)?)),
    }
}
