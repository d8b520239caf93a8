//! Timings from JSON text.

ghost use Rattle.std.specs.Prelude.{◌≡◌, codes, None, Some, IfOk, IsErrOf, string_bytes, true};
ghost use Rattle.std.specs.List.{list_all};
ghost use Rattle.std.specs.Map.{keys_of};
ghost use Rattle.std.specs.Str.{is_utf8};
ghost use Rattle.serde_json.specs.Read.{read};
ghost use Rattle.serde_json.specs.View.{view};
ghost use Rattle.fetch_timing.specs.TimingFiles.{class_fields, cycles, is_field, line_sizes, number_at, numbers_at, set_counts, timing_in, timing_of, way_counts};
ghost use Rattle.fetch_timing.specs.Timings.{IsWithinLimits};

use crate::refusal::TimingRefusal;
use crate::timing::Timing;
use serde_json::error::Category;
use serde_json::{Map, Value};
use std::alloc::Global;

/// What an instruction or a miss costs at most, in cycles.
const MOST_CYCLES: u64 = 1_000_000;

/// The timing that a file's bytes are: the UTF-8 text of a JSON object that has exactly the names `sets`,
/// `ways`, `line`, `miss`, `skipped`, `register`, `compute`, `shifted`, `multiply`, `long`, `load`, `store`,
/// `loadmany`, `storemany`, `branch`, `call` and `exchange`, each with a whole number.
///
/// The sets are a power of two from 1 to 1,024, the ways 1 to 16, the bytes of a line a power of two from 4
/// to 64, and all else are cycles from 0 to 1,000,000. Names may stand in any order and be written with
/// escapes. Of a name that stands twice the last number counts. A number with a point or an exponent, and
/// `-0`, is no whole number.
///
/// `Bad` comes where the bytes are no such text, and `Memory` where memory is refused.
pub fn read_timing(alloc: Global, bytes: &[u8]) -> Result<Timing, TimingRefusal>
    ensures ok { IfOk result (λ timing. timing_of bytes.now ≡ Some timing) }
    ensures limits { IfOk result (λ timing. IsWithinLimits timing) }
    ensures bad { IsErrOf result TimingRefusal.Bad → timing_of bytes.now ≡ None }
{
    let value = value_of(alloc, bytes)?;
    timing_in(&value).ok_or(TimingRefusal::Bad)
}

/// The JSON value whose text the bytes are.
#[tactic(auto, using(crate::proofs::Texts::text_tested, crate::proofs::Texts::tested_text))]
fn value_of(alloc: Global, bytes: &[u8]) -> Result<Value, TimingRefusal>
    ensures ok { IfOk result (λ value. (is_utf8 bytes.now ≡ true) × (read bytes.now ≡ Some (view value))) }
    ensures bad { IsErrOf result TimingRefusal.Bad → is_utf8 bytes.now ≡ true → read bytes.now ≡ None }
{
    Value::from_slice(alloc, bytes).map_err(|error| match error.classify() {
        Category::Memory => TimingRefusal::Memory,
        _ => TimingRefusal::Bad,
    })
}

/// The timing that a JSON value is.
#[tactic(auto, using(crate::proofs::Names::other_name, crate::proofs::Names::all_names))]
fn timing_in(value: &Value) -> Option<Timing>
    ensures { result ≡ timing_in (view value.now) }
{
    if !has_only_fields(value.as_object()?) {
        return None;
    }
    Some(Timing {
        sets: set_count(value)?,
        ways: way_count(value)?,
        line: line_size(value)?,
        miss: cycles(value, "miss")?,
        skipped: cycles(value, "skipped")?,
        register: cycles(value, "register")?,
        classes: class_costs(value)?,
    })
}

/// The cycles of the classes of instructions, in their order.
fn class_costs(value: &Value) -> Option<[u64; 11]>
    ensures { result ≡ numbers_at (view value.now) class_fields }
{
    Some([
        cycles(value, "compute")?,
        cycles(value, "shifted")?,
        cycles(value, "multiply")?,
        cycles(value, "long")?,
        cycles(value, "load")?,
        cycles(value, "store")?,
        cycles(value, "loadmany")?,
        cycles(value, "storemany")?,
        cycles(value, "branch")?,
        cycles(value, "call")?,
        cycles(value, "exchange")?,
    ])
}

/// Whether an object has no names but those of a timing.
fn has_only_fields(object: &Map<String, Value>) -> bool
    ensures { result ≡ list_all (λ name. is_field (string_bytes name)) (keys_of object.now.entries) }
{
    object.keys().all(|name| is_field(name.as_str()))
}

/// Whether a name is one of a timing.
fn is_field(name: &str) -> bool
    ensures { result ≡ is_field name.now }
{
    matches!(
        name,
        "sets"
            | "ways"
            | "line"
            | "miss"
            | "skipped"
            | "register"
            | "compute"
            | "shifted"
            | "multiply"
            | "long"
            | "load"
            | "store"
            | "loadmany"
            | "storemany"
            | "branch"
            | "call"
            | "exchange"
    )
}

/// The number of sets.
fn set_count(value: &Value) -> Option<u32>
    ensures { result ≡ number_at (view value.now) (record { name = codes "sets"; allows = set_counts }) }
{
    match value.get("sets").and_then(Value::as_u64)? {
        sets @ (1 | 2 | 4 | 8 | 16 | 32 | 64 | 128 | 256 | 512 | 1024) => Some(sets as u32),
        _ => None,
    }
}

/// The lines that each set holds.
fn way_count(value: &Value) -> Option<u32>
    ensures { result ≡ number_at (view value.now) (record { name = codes "ways"; allows = way_counts }) }
{
    match value.get("ways").and_then(Value::as_u64)? {
        ways @ 1..=16 => Some(ways as u32),
        _ => None,
    }
}

/// The bytes of a line.
fn line_size(value: &Value) -> Option<u32>
    ensures { result ≡ number_at (view value.now) (record { name = codes "line"; allows = line_sizes }) }
{
    match value.get("line").and_then(Value::as_u64)? {
        bytes @ (4 | 8 | 16 | 32 | 64) => Some(bytes as u32),
        _ => None,
    }
}

/// The cycles at a name.
fn cycles(value: &Value, name: &str) -> Option<u64>
    ensures { result ≡ number_at (view value.now) (record { name = name.now; allows = cycles }) }
{
    match value.get(name).and_then(Value::as_u64)? {
        cycles @ 0..=MOST_CYCLES => Some(cycles),
        _ => None,
    }
}
