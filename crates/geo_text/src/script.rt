ghost use Rattle.std.specs.Bool.{MatchBool};
ghost use Rattle.std.specs.Prelude.{◌≡◌, ◌≤◌, ◌==◌, ◌++◌, [], true, false, if◌then◌else◌, length, IfOk, IfSome, OnOk, OnErr};
ghost use Rattle.geo_text.specs.Reading.{IsWellSized, TakesCommand, asked_version, reading_of};
ghost use Rattle.geo_text.specs.Records.{later_records_of, plain_fields, records_of};
ghost use Rattle.geo_text.specs.Script.{IsReading, TakesFields, records_left};

use crate::command::{Bad, Command};
use crate::limits::Limits;
use crate::reading::{asks_two, command};
use crate::version::Version;
use csv::{ByteRecord, Reader, ReaderBuilder};
use exact_plane::Memory;
use std::alloc::Global;
use std::io::{Chain, Read};
use std::marker::Model;

/// The records of a script that are left to read.
#[derive(Drop)]
pub struct Script<'a> {
    reader: Reader<Chain<&'a [u8], &'a [u8]>>,
    row: ByteRecord,
    numbers: Vec<i64>,
    alloc: Global,
    next: usize,
    version: Version,
    ended: bool,
    failed: bool,
}

impl<'a> Model for Script<'a> {
    ghost use Rattle.geo_text.specs.Records.{Unread};

    ghost Value = { Unread };

    ghost use Rattle.geo_text.specs.Script.{ReadsOn, unread};

    ghost view = { unread };

    ghost invariant = { ReadsOn };
}

impl<'a> Script<'a> {
    /// The script that these bytes are, before its first record. It takes no memory, and keeps the allocator.
    pub fn open(alloc: Global, bytes: &'a [u8]) -> Script<'a>
        ensures { result ≡ record { left = records_of bytes.now; next = 0; version = Version.One; failed = false } }
    {
        Script::over(alloc, b"".as_slice(), bytes, 0, Version::One)
    }

    /// A later part of a script, whose front is no front of the script: a byte order mark there is text. Where a record came
    /// before, no record of it is the script's first one, and `version` is that of the script.
    pub fn resume(alloc: Global, bytes: &'a [u8], started: bool, version: Version) -> Script<'a>
        ensures { result ≡ record { left = later_records_of bytes.now; next = if started then 1 else 0; version = version; failed = false } }
    {
        // An empty line is no record, and `csv` drops a mark at the front alone.
        Script::over(alloc, b"\n".as_slice(), bytes, started as usize, version)
    }

    // The records of these bytes, one part after the other. The first of them has a number.
    fn over(
        alloc: Global,
        front: &'a [u8],
        bytes: &'a [u8],
        next: usize,
        version: Version,
    ) -> Script<'a>
        requires short { length front.now ≤ 1 }
        requires next { next ≤ 1 }
        ensures { result ≡ record { left = records_of (front.now ++ bytes.now); next = next; version = version; failed = false } }
    {
        Script {
            reader: ReaderBuilder::new()
                .has_headers(false)
                .flexible(true)
                .from_reader(alloc, front.chain(bytes)),
            row: ByteRecord::new(alloc),
            numbers: Vec::new(alloc),
            alloc,
            next,
            version,
            ended: false,
            failed: false,
        }
    }

    /// The next record's command or refusal, or `None` at the end. The first record says of which version the script is. Once
    /// it answered want of memory, every later call does.
    pub fn next_command(&mut self) -> Result<Option<Result<Command, Bad>>, Memory>
        ensures takes { IfOk result (λ found. TakesCommand self.old self.new found) }
        ensures well_sized { IfOk result (λ found. IfSome found (λ reading. IfOk reading IsWellSized)) }
        ensures fails { OnErr result (self.new.failed ≡ true) }
        ensures goes_on { OnOk result ((self.old.failed ≡ false) × (self.new.failed ≡ false)) }
    {
        if self.failed {
            return Err(Memory);
        }
        if self.ended {
            return Ok(None);
        }
        self.failed = true;
        if !read(&mut self.reader, &mut self.row)? {
            self.ended = true;
            self.failed = false;
            return Ok(None);
        }
        self.version = version(&self.row, self.next, self.version);
        let reading = reading(
            self.alloc,
            &self.row,
            &mut self.numbers,
            self.next,
            self.version,
        )?;
        self.next += 1;
        self.failed = false;
        Ok(Some(reading))
    }
}

// Of which version a script is, once the record with this number was read: it was of this one before.
fn version(row: &ByteRecord, number: usize, before: Version) -> Version
    ensures { result ≡ (if number == 0 then asked_version (plain_fields row.now) else before) }
{
    if number == 0 {
        Version::of(asks_two(row))
    } else {
        before
    }
}

// The command that the record with this number is in a script of this version, or why it is none.
fn reading(
    alloc: Global,
    row: &ByteRecord,
    numbers: &mut Vec<i64>,
    number: usize,
    version: Version,
) -> Result<Result<Command, Bad>, Memory>
    ensures { IfOk result (λ reading. reading ≡ reading_of version number (plain_fields row.now)) }
{
    if version == Version::Two && number == 0 {
        Ok(Ok(Command::Two))
    } else {
        command(alloc, &Limits::of(version), row, numbers)
    }
}

// Reads the next record into `row`, if there is one.
fn read(reader: &mut Reader<Chain<&[u8], &[u8]>>, row: &mut ByteRecord) -> Result<bool, Memory>
    requires { IsReading reader.old }
    ensures { IfOk result (λ found. MatchBool found (TakesFields reader.old reader.new (plain_fields row.new)) (records_left reader.old ≡ [])) }
{
    reader.read_byte_record(row).or(Err(Memory))
}
