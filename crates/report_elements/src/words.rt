//! The words of a line, read one after another.

ghost use Rattle.std.specs.Prelude.{◌≡◌, ◌<◌, ◌^◌, unsigned_abs, [], ◌∷◌, length, MatchOption, IfSome};
ghost use Rattle.report_elements.specs.Words.{address_of, before, later, byte_off, from, front, three, two, words};
ghost use Rattle.report_elements.specs.Numbers.{number_below};
ghost use Rattle.report_elements.specs.Signed.{signed_of};

use crate::addresses::address;
use crate::digits::number;
use std::marker::Model;

/// How many bytes stand before the first mark.
fn place(text: &[u8], mark: u8) -> usize
    ensures { result ≡ length (before mark text.now) }
{
    let mut at = 0;
    for byte in text {
        if *byte == mark {
            return at;
        }
        at += 1;
    }
    at
}

/// The bytes before the first mark, and those from it on.
pub fn cut(text: &[u8], mark: u8) -> (&[u8], &[u8])
    ensures first { result.0.now ≡ before mark text.now }
    ensures second { result.1.now ≡ from mark text.now }
{
    let at = place(text, mark);
    text.split_at(at)
}

/// All bytes but the first.
pub fn byte_off(text: &[u8]) -> &[u8]
    ensures { result.now ≡ byte_off text.now }
{
    match text.split_first() {
        Some((_, rest)) => rest,
        None => text,
    }
}

/// The number with its sign that a word writes.
pub fn wide(word: &[u8]) -> Option<i128>
    ensures value { result ≡ signed_of (2 ^ 126) word.now }
    ensures within { IfSome result (λ z. unsigned_abs z < 2 ^ 126) }
{
    match word.split_first() {
        Some((first, rest)) => {
            if *first == 45 {
                let size = number(rest, 1 << 126)?;
                Some(-(size as i128))
            } else {
                let size = number(word, 1 << 126)?;
                Some(size as i128)
            }
        }
        None => None,
    }
}

/// The words that are left of a line.
#[derive(Drop)]
pub struct Fields<'a> {
    rest: &'a [u8],
}

impl<'a> Model for Fields<'a> {
    ghost use Rattle.std.specs.Prelude.{List, ℕ};
    ghost use Rattle.report_elements.specs.Words.{words};

    ghost Value = { List (List ℕ) };

    ghost view = { λ f. words f.rest.now };
}

impl<'a> Fields<'a> {
    /// The words of a text in which a space stands before each.
    pub fn new(text: &'a [u8]) -> Fields<'a>
        ensures { result ≡ words text.now }
    {
        Fields { rest: text }
    }

    /// The next word.
    #[tactic(auto, using(crate::proofs::Cutting::words_cut))]
    pub fn next(&mut self) -> Option<&'a [u8]>
        ensures { MatchOption result ((self.old ≡ []) × (self.new ≡ [])) (λ w. self.old ≡ w.now ∷ self.new) }
    {
        match self.rest.split_first() {
            Some((_, text)) => {
                let (word, rest) = cut(text, 32);
                self.rest = rest;
                Some(word)
            }
            None => None,
        }
    }

    /// Goes past a word.
    pub fn skip(&mut self)
        ensures { self.new ≡ later self.old }
    {
        let _word = self.next();
    }

    /// The number below a limit that the next word writes.
    pub fn number(&mut self, limit: u128) -> Option<u128>
        requires { 0 < limit }
        ensures value { result ≡ front (number_below limit 0) self.old }
        ensures rest { self.new ≡ later self.old }
        ensures within { IfSome result (λ n. n < limit) }
    {
        match self.next() {
            Some(word) => number(word, limit),
            None => None,
        }
    }
    /// The number with its sign that the next word writes.
    pub fn signed(&mut self) -> Option<i128>
        ensures value { result ≡ front (signed_of (2 ^ 126)) self.old }
        ensures rest { self.new ≡ later self.old }
        ensures within { IfSome result (λ z. unsigned_abs z < 2 ^ 126) }
    {
        match self.next() {
            Some(word) => wide(word),
            None => None,
        }
    }

    /// The address that the next word writes.
    pub fn address(&mut self) -> Option<u32>
        ensures value { result ≡ front address_of self.old }
        ensures rest { self.new ≡ later self.old }
    {
        match self.next() {
            Some(word) => address(word),
            None => None,
        }
    }

    /// A number of 32 bits.
    pub fn small(&mut self) -> Option<u32>
        ensures value { result ≡ front (number_below (2 ^ 32) 0) self.old }
        ensures rest { self.new ≡ later self.old }
    {
        match self.number(1 << 32) {
            Some(number) => Some(number as u32),
            None => None,
        }
    }

    /// Two numbers of 32 bits.
    pub fn two(&mut self) -> Option<(u32, u32)>
        ensures value { result ≡ two self.old }
        ensures rest { self.new ≡ later (later self.old) }
    {
        let first = self.small();
        let second = self.small();
        match first {
            Some(first) => match second {
                Some(second) => Some((first, second)),
                None => None,
            },
            None => None,
        }
    }

    /// Three numbers of 32 bits.
    pub fn three(&mut self) -> Option<(u32, u32, u32)>
        ensures value { result ≡ three self.old }
        ensures rest { self.new ≡ later (later (later self.old)) }
    {
        let first = self.small();
        let others = self.two();
        match first {
            Some(first) => match others {
                Some((second, third)) => Some((first, second, third)),
                None => None,
            },
            None => None,
        }
    }
}
