//! The words after the places of an analysis.

ghost use Rattle.std.specs.Prelude.{◌≡◌, ◌<◌, ◌==◌, pos, negsuc, ◌≤ℤ◌, None, IfOk, IfSome, map, string_bytes};
ghost use Rattle.std.specs.List.{list_any};
ghost use Rattle.std.specs.Str.{bytes_eq};
ghost use Rattle.command_words.specs.Analyses.{after_key, after_param, after_stack, after_word, analysis_of};
ghost use Rattle.command_words.specs.Analyses.{analysis_with, given_param, high_of, nothing_given, param_of, place_of};
ghost use Rattle.command_words.specs.Analyses.{IsAnalysis, IsGiven, IsPlace, IsRange};

use crate::numerals::signed_number;
use crate::parts::{
    DEFAULT_STACK, cut, cut_at_colon, cut_at_dot, is_name, register_of, stack_size,
};
use sqlite_items::Items;
use std::alloc::{AllocError, Global};
use wsym_terms::{Name, ParamRange};

/// For which parameters a function is analysed, and with how much stack.
#[derive(Drop)]
pub struct AnalysisSetup {
    /// The parameters, in the order of the words: each has a name, a register from 0 to 12, and a range, and no two
    /// have the same name or the same register.
    pub params: Items<ParamRange>,
    /// The size of the stack in bytes: a multiple of 4, at most 1,048,576.
    pub stack: u32,
}

/// What the words so far gave.
#[derive(Drop)]
pub(crate) struct GivenAnalysis {
    params: Items<ParamRange>,
    stack: Option<u32>,
}

/// How an analysis is set up by the words after its places, or `None` where one of them is wrong.
pub(crate) fn read_analysis_setup(
    alloc: Global,
    words: &[String],
) -> Result<Option<AnalysisSetup>, AllocError>
    ensures value { IfOk result (λ found. found ≡ analysis_of (map string_bytes words.now)) }
    ensures setup { IfOk result (λ found. IfSome found IsAnalysis) }
{
    let mut given = GivenAnalysis::new(alloc);
    for word in words {
        match given.with_word(alloc, word.as_str())? {
            Some(next) => given = next,
            None => return Ok(None),
        }
    }
    Ok(Some(given.setup()))
}

impl GivenAnalysis {
    fn new(alloc: Global) -> GivenAnalysis
        ensures value { result ≡ nothing_given }
        ensures given { IsGiven result }
    {
        GivenAnalysis {
            params: Items::new(alloc),
            stack: None,
        }
    }

    fn with_word(self, alloc: Global, word: &str) -> Result<Option<GivenAnalysis>, AllocError>
        requires { IsGiven self }
        ensures value { IfOk result (λ next. next ≡ after_word self word.now) }
        ensures given { IfOk result (λ next. IfSome next IsGiven) }
    {
        match cut(word) {
            Some((key, text)) => self.with_key(alloc, key, text),
            None => Ok(None),
        }
    }

    fn with_key(
        self,
        alloc: Global,
        key: &str,
        text: &str,
    ) -> Result<Option<GivenAnalysis>, AllocError>
        requires { IsGiven self }
        ensures value { IfOk result (λ next. next ≡ after_key self key.now text.now) }
        ensures given { IfOk result (λ next. IfSome next IsGiven) }
    {
        if key == "param" {
            self.with_param_word(alloc, text)
        } else if key == "stack" {
            Ok(self.with_stack(text))
        } else {
            Ok(None)
        }
    }

    fn with_param_word(self, alloc: Global, text: &str) -> Result<Option<GivenAnalysis>, AllocError>
        requires { IsGiven self }
        ensures value { IfOk result (λ next. next ≡ after_param self text.now) }
        ensures given { IfOk result (λ next. IfSome next IsGiven) }
    {
        match read_param(alloc, text)? {
            Some(param) => self.with_param(param),
            None => Ok(None),
        }
    }

    fn with_param(mut self, param: ParamRange) -> Result<Option<GivenAnalysis>, AllocError>
        requires given { IsGiven self }
        requires range { IsRange param }
        ensures value { IfOk result (λ next. next ≡ given_param self param) }
        ensures given { IfOk result (λ next. IfSome next IsGiven) }
    {
        if has_name(self.params.as_slice(), param.name.as_str())
            || has_register(self.params.as_slice(), param.register)
        {
            return Ok(None);
        }
        self.params.push(param)?;
        Ok(Some(self))
    }

    fn with_stack(mut self, text: &str) -> Option<GivenAnalysis>
        requires { IsGiven self }
        ensures value { result ≡ after_stack self text.now }
        ensures given { IfSome result IsGiven }
    {
        if self.stack.is_some() {
            return None;
        }
        self.stack = Some(stack_size(text)?);
        Some(self)
    }

    fn setup(self) -> AnalysisSetup
        requires { IsGiven self }
        ensures value { result ≡ analysis_with self }
        ensures setup { IsAnalysis result }
    {
        AnalysisSetup {
            params: self.params,
            stack: self.stack.unwrap_or(DEFAULT_STACK),
        }
    }
}

/// The parameter of `NAME:rK:LO..HI`.
fn read_param(alloc: Global, text: &str) -> Result<Option<ParamRange>, AllocError>
    ensures value { IfOk result (λ found. found ≡ param_of text.now) }
    ensures range { IfOk result (λ found. IfSome found IsRange) }
{
    let Some((name, place)) = cut_at_colon(text) else {
        return Ok(None);
    };
    if !is_name(name) {
        return Ok(None);
    }
    match read_place(place) {
        Some(place) => Ok(Some(ParamRange {
            name: Name::new(String::from_str(alloc, name)?),
            register: place.register,
            low: place.low,
            high: place.high,
        })),
        None => Ok(None),
    }
}

/// Where a parameter stands, and between which values.
#[derive(Clone, Copy)]
pub(crate) struct Place {
    register: u8,
    low: i32,
    high: i32,
}

/// The register and the range of `rK:LO..HI`.
fn read_place(text: &str) -> Option<Place>
    ensures value { result ≡ place_of text.now }
    ensures place { IfSome result IsPlace }
{
    let (register, range) = cut_at_colon(text)?;
    let register = register_of(register)?;
    let (low, high) = cut_at_dot(range)?;
    let low = signed_number(low.as_bytes())?;
    let high = high_of(high.as_bytes())?;
    if low <= high {
        Some(Place {
            register,
            low,
            high,
        })
    } else {
        None
    }
}

/// The number after a second dot.
fn high_of(text: &[u8]) -> Option<i32>
    ensures value { result ≡ high_of text.now }
    ensures low { IfSome result (λ z. negsuc 2147483647 ≤ℤ z) }
    ensures high { IfSome result (λ z. z ≤ℤ pos 2147483647) }
{
    let (dot, number) = text.split_first()?;
    if *dot == b'.' {
        signed_number(number)
    } else {
        None
    }
}

fn has_name(params: &[ParamRange], name: &str) -> bool
    ensures { result ≡ list_any (λ q. bytes_eq q.name name.now) params.now }
{
    for other in params {
        if other.name.as_str() == name {
            return true;
        }
    }
    false
}

fn has_register(params: &[ParamRange], register: u8) -> bool
    ensures { result ≡ list_any (λ q. q.register == register) params.now }
{
    for other in params {
        if other.register == register {
            return true;
        }
    }
    false
}
