// Text that is written from its end to its front, as the digits of a number come out.
ghost use Rattle.std.specs.Prelude.{◌≡◌, ◌+◌, ◌<◌, ◌≤◌, ◌++◌, ◌∷◌, [], length, decimal, OnOk, OnErr, vec_capacity};
ghost use Rattle.std.specs.Fmt.{signed_decimal};
ghost use Rattle.geo_text.specs.Texts.{hom_text, index_text, pt_text, terms_text};
ghost use Rattle.geo_text.specs.declared.ending.TheConstants.{ROOM};

use exact_frac::Frac;
use exact_plane::{Hom, Memory, Pt, Steps};
use itoa::{Buffer, write_digits};
use std::marker::Model;
use std::sync::ledger::Ledger;

/// An ending has at most so many bytes.
pub const ROOM: usize = 192;

/// The end of a line, which grows at its front.
#[derive(Drop)]
pub struct Ending {
    bytes: [u8; ROOM],
    start: usize,
}

impl Model for Ending {
    ghost use Rattle.std.specs.Prelude.{List, ℕ, ◌≤◌, drop};
    ghost use Rattle.geo_text.specs.declared.ending.TheConstants.{ROOM};

    ghost Value = { List ℕ };

    ghost view = { λ e. drop e.start e.bytes };

    ghost invariant = { λ e. e.start ≤ ROOM };
}

impl Ending {
    /// One with nothing in it.
    #[inline]
    pub fn new() -> Ending
        ensures { result ≡ [] }
    {
        Ending {
            bytes: [0; ROOM],
            start: ROOM,
        }
    }

    /// Puts a word before it.
    #[inline]
    pub fn put_word(&mut self, word: &str)
        requires { length word.now + length self.old ≤ ROOM }
        ensures text { self.new ≡ word.now ++ self.old }
        ensures longer { length self.new ≡ length word.now + length self.old }
    {
        let end = self.start;
        self.start -= word.len();
        self.bytes[self.start..end].copy_from_slice(word.as_bytes());
    }

    // The same with one byte.
    #[inline]
    fn put_mark(&mut self, mark: u8)
        requires { 1 + length self.old ≤ ROOM }
        ensures text { self.new ≡ mark ∷ self.old }
        ensures longer { length self.new ≡ 1 + length self.old }
    {
        self.start -= 1;
        self.bytes[self.start] = mark;
    }

    // Puts the digits of a number before it.
    #[inline]
    fn put_digits(&mut self, number: u64)
        requires { length (decimal number) + length self.old ≤ ROOM }
        ensures text { self.new ≡ decimal number ++ self.old }
        ensures longer { length self.new ≡ length (decimal number) + length self.old }
    {
        self.start = write_digits(number, &mut self.bytes, self.start);
    }

    /// Puts a comma and a number before it.
    #[inline]
    #[tactic(auto, using(crate::proofs::DigitCounts::ten_digits))]
    pub fn put_index(&mut self, index: u32)
        requires { 11 + length self.old ≤ ROOM }
        ensures text { self.new ≡ index_text index ++ self.old }
        ensures longer { length self.new ≤ 11 + length self.old }
    {
        self.put_digits(u64::from(index));
        self.put_mark(b',');
    }

    /// Puts a comma and a number of 64 bits before it.
    #[inline]
    #[tactic(auto, using(crate::proofs::DigitCounts::twenty_digits))]
    pub fn put_wide(&mut self, number: u64)
        requires { 21 + length self.old ≤ ROOM }
        ensures text { self.new ≡ index_text number ++ self.old }
        ensures longer { length self.new ≤ 21 + length self.old }
    {
        self.put_digits(number);
        self.put_mark(b',');
    }

    // Puts a number with its sign before it.
    #[inline]
    #[tactic(auto, using(crate::proofs::DigitCounts::nineteen_digits))]
    fn put_signed(&mut self, number: i64)
        requires { 20 + length self.old ≤ ROOM }
        ensures text { self.new ≡ signed_decimal number ++ self.old }
        ensures longer { length self.new ≤ 20 + length self.old }
    {
        self.put_digits(number.unsigned_abs());
        if number < 0 {
            self.put_mark(b'-');
        }
    }

    // Puts a comma, x, a comma and y before it. It takes 64 steps.
    #[inline]
    pub(crate) fn put_pt<L: Ledger>(&mut self, p: &Pt, steps: &mut Steps<L>)
        requires { 42 + length self.old ≤ ROOM }
        ensures text { self.new ≡ pt_text p.now ++ self.old }
        ensures longer { length self.new ≤ 18 + length self.old }
        ensures steps { steps.new ≡ steps.old + 64 }
    {
        let (x, y) = p.parts(steps);
        self.put_signed(y);
        self.put_mark(b',');
        self.put_signed(x);
        self.put_mark(b',');
    }

    /// Puts a comma, X / W, a comma and Y / W before it, each as a fraction in lowest terms. It takes 64 steps.
    pub fn put_hom<L: Ledger>(&mut self, p: &Hom, steps: &mut Steps<L>)
        requires { 164 + length self.old ≤ ROOM }
        ensures text { self.new ≡ hom_text p.now ++ self.old }
        ensures longer { length self.new ≤ 164 + length self.old }
        ensures steps { steps.new ≡ steps.old + 64 }
    {
        let (x, y, w) = p.parts(steps);
        self.put_fraction(Frac::lowest(y, w));
        self.put_mark(b',');
        self.put_fraction(Frac::lowest(x, w));
        self.put_mark(b',');
    }

    // Puts a fraction before it.
    fn put_fraction(&mut self, frac: Frac)
        requires { 81 + length self.old ≤ ROOM }
        ensures text { self.new ≡ terms_text frac.num frac.den ++ self.old }
        ensures longer { length self.new ≤ 81 + length self.old }
    {
        if !frac.is_whole() {
            self.put_great(frac.den);
            self.put_mark(b'/');
        }
        self.put_great(frac.num);
    }

    // Puts a number of 128 bits before it.
    fn put_great(&mut self, number: i128)
        requires { 40 + length self.old ≤ ROOM }
        ensures text { self.new ≡ signed_decimal number ++ self.old }
        ensures longer { length self.new ≤ 40 + length self.old }
    {
        match i64::try_from(number) {
            Ok(number) => self.put_signed(number),
            Err(_) => self.put_word(Buffer::new().format(number)),
        }
    }

    /// Appends the ending to `out`. Returns `Memory` only if `out` lacks room for it, and then keeps the bytes of `out`.
    #[inline]
    pub fn append_to(&self, out: &mut Vec<u8>) -> Result<(), Memory>
        ensures ok { OnOk result (out.new.items ≡ out.old.items ++ self.now) }
        ensures err { OnErr result (out.new.items ≡ out.old.items) }
        ensures capacity { vec_capacity out.old ≤ vec_capacity out.new }
        ensures full { OnErr result (vec_capacity out.old < length out.old.items + length self.now) }
    {
        out.extend_from_slice(&self.bytes[self.start..])?;
        Ok(())
    }
}
