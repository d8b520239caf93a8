//! The words after the places of a run.

ghost use Rattle.std.specs.Prelude.{◌≡◌, ◌<◌, ◌==◌, None, IfOk, IfSome, map, string_bytes};
ghost use Rattle.std.specs.List.{list_any};
ghost use Rattle.std.specs.Str.{bytes_eq};
ghost use Rattle.command_words.specs.Options.{after_key, after_sp, after_stack, after_steps, after_value, after_word};
ghost use Rattle.command_words.specs.Options.{given_value, nothing_given, register_value_of, setup_of, setup_with};
ghost use Rattle.command_words.specs.Options.{IsGiven, IsSetup};

use crate::numerals::{address, number, signed_number};
use crate::parts::{DEFAULT_STACK, cut, is_name, register_of, stack_size};
use crate::word::Word;
use arm_machine::RegisterValue;
use sqlite_items::Items;
use std::alloc::{AllocError, Global};

/// The stack pointer of a run that is given none.
const DEFAULT_SP: u32 = 0x2000_0000;

/// The steps of a run that is given no number.
const DEFAULT_STEPS: u64 = 1_000_000;

/// The most steps.
const MOST_STEPS: u64 = 1_000_000_000_000;

/// How a run starts, and how long it may be.
#[derive(Drop)]
pub struct Setup {
    /// The numbers that registers start with, in the order of the words: registers 0 to 12, each at most once.
    pub values: Items<RegisterValue>,
    /// The address in the stack pointer.
    pub sp: u32,
    /// The size of the stack in bytes: a multiple of 4, at most 1,048,576.
    pub stack: u32,
    /// How many steps the run may make: 1 to 1,000,000,000,000.
    pub steps: u64,
}

/// What the words so far gave.
#[derive(Drop)]
pub(crate) struct Given {
    names: Items<Word>,
    values: Items<RegisterValue>,
    sp: Option<u32>,
    stack: Option<u32>,
    steps: Option<u64>,
}

/// How a run is set up by the words after its places, or `None` where one of them is wrong.
pub(crate) fn read_setup(alloc: Global, words: &[String]) -> Result<Option<Setup>, AllocError>
    ensures value { IfOk result (λ found. found ≡ setup_of (map string_bytes words.now)) }
    ensures setup { IfOk result (λ found. IfSome found IsSetup) }
{
    let mut given = Given::new(alloc);
    for word in words {
        match given.with_word(alloc, word.as_str())? {
            Some(next) => given = next,
            None => return Ok(None),
        }
    }
    Ok(Some(given.setup()))
}

impl Given {
    fn new(alloc: Global) -> Given
        ensures value { result ≡ nothing_given }
        ensures given { IsGiven result }
    {
        Given {
            names: Items::new(alloc),
            values: Items::new(alloc),
            sp: None,
            stack: None,
            steps: None,
        }
    }

    fn with_word(self, alloc: Global, word: &str) -> Result<Option<Given>, AllocError>
        requires { IsGiven self }
        ensures value { IfOk result (λ next. next ≡ after_word self word.now) }
        ensures given { IfOk result (λ next. IfSome next IsGiven) }
    {
        match cut(word) {
            Some((key, text)) => self.with_key(alloc, key, text),
            None => Ok(None),
        }
    }

    fn with_key(self, alloc: Global, key: &str, text: &str) -> Result<Option<Given>, AllocError>
        requires { IsGiven self }
        ensures value { IfOk result (λ next. next ≡ after_key self key.now text.now) }
        ensures given { IfOk result (λ next. IfSome next IsGiven) }
    {
        if key == "sp" {
            Ok(self.with_sp(text))
        } else if key == "stack" {
            Ok(self.with_stack(text))
        } else if key == "steps" {
            Ok(self.with_steps(text))
        } else {
            self.with_named(alloc, key, text)
        }
    }

    fn with_sp(mut self, text: &str) -> Option<Given>
        requires { IsGiven self }
        ensures value { result ≡ after_sp self text.now }
        ensures given { IfSome result IsGiven }
    {
        if self.sp.is_some() {
            return None;
        }
        self.sp = Some(address(text)?);
        Some(self)
    }

    fn with_stack(mut self, text: &str) -> Option<Given>
        requires { IsGiven self }
        ensures value { result ≡ after_stack self text.now }
        ensures given { IfSome result IsGiven }
    {
        if self.stack.is_some() {
            return None;
        }
        self.stack = Some(stack_size(text)?);
        Some(self)
    }

    fn with_steps(mut self, text: &str) -> Option<Given>
        requires { IsGiven self }
        ensures value { result ≡ after_steps self text.now }
        ensures given { IfSome result IsGiven }
    {
        if self.steps.is_some() {
            return None;
        }
        self.steps = Some(number(text.as_bytes(), 1, MOST_STEPS)?);
        Some(self)
    }

    fn with_named(self, alloc: Global, name: &str, text: &str) -> Result<Option<Given>, AllocError>
        requires { IsGiven self }
        ensures value { IfOk result (λ next. next ≡ after_value self name.now text.now) }
        ensures given { IfOk result (λ next. IfSome next IsGiven) }
    {
        if !is_name(name) {
            return Ok(None);
        }
        match register_value(text) {
            Some(value) => self.with_value(alloc, name, value),
            None => Ok(None),
        }
    }

    #[tactic(auto, using(crate::proofs::Parameters::one_more))]
    fn with_value(
        mut self,
        alloc: Global,
        name: &str,
        value: RegisterValue,
    ) -> Result<Option<Given>, AllocError>
        requires given { IsGiven self }
        requires register { value.register < 13 }
        ensures value { IfOk result (λ next. next ≡ given_value self name.now value) }
        ensures given { IfOk result (λ next. IfSome next IsGiven) }
    {
        if has_name(self.names.as_slice(), name)
            || has_register(self.values.as_slice(), value.register)
        {
            return Ok(None);
        }
        self.names.push(Word::of(alloc, name)?)?;
        self.values.push(value)?;
        Ok(Some(self))
    }

    fn setup(self) -> Setup
        requires { IsGiven self }
        ensures value { result ≡ setup_with self }
        ensures setup { IsSetup result }
    {
        Setup {
            values: self.values,
            sp: self.sp.unwrap_or(DEFAULT_SP),
            stack: self.stack.unwrap_or(DEFAULT_STACK),
            steps: self.steps.unwrap_or(DEFAULT_STEPS),
        }
    }
}

/// The register and the number of `rK=VALUE`.
fn register_value(text: &str) -> Option<RegisterValue>
    ensures value { result ≡ register_value_of text.now }
    ensures register { IfSome result (λ p. p.register < 13) }
{
    let (register, value) = cut(text)?;
    Some(RegisterValue {
        register: register_of(register)?,
        value: signed_number(value.as_bytes())?,
    })
}

fn has_name(names: &[Word], name: &str) -> bool
    ensures { result ≡ list_any (λ other. bytes_eq other name.now) names.now }
{
    for other in names {
        if other.as_str() == name {
            return true;
        }
    }
    false
}

fn has_register(values: &[RegisterValue], register: u8) -> bool
    ensures { result ≡ list_any (λ q. q.register == register) values.now }
{
    for other in values {
        if other.register == register {
            return true;
        }
    }
    false
}
