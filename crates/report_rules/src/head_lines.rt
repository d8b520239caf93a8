//! The lines from the version to the loops.

ghost use Rattle.std.specs.Prelude.{◌≡◌, ◌==◌};
ghost use Rattle.report_rules.specs.Following.{after_header, all_u32, block_ok, costs_ok, function_ok, geometry_ok, is_line_size, is_set_count, is_taken, last_of, loop_ok, may, param_ok, timing_ok};
ghost use Rattle.report_lines.specs.declared.report.Line.TheVariants as line;

use crate::forms::Form;
use crate::naming::is_name;
use crate::sections::{
    has_function, has_timing, has_version, is_level, no_blocks, no_function, no_loops, no_rows,
    no_timing, no_version,
};
use fetch_timing::Timing;
use report_lines::{ReportBlock, ReportLoop};
use wsym_terms::ParamRange;

fn version_ok(version: u8) -> bool
    ensures { result ≡ (version == 1) }
{
    version == 1
}

pub(crate) fn may_version(form: &Form, version: u8) -> bool
    ensures { result ≡ may form.now (line.Version version) }
{
    version_ok(version) && no_version(form)
}

fn function_ok(entry: u32, stack: u32) -> bool
    ensures { result ≡ function_ok entry stack }
{
    let _entry = entry;
    stack <= 1_048_576 && stack % 4 == 0
}

pub(crate) fn may_function(form: &Form, entry: u32, stack: u32) -> bool
    ensures { result ≡ may form.now (line.Function entry stack) }
{
    function_ok(entry, stack) && has_version(form) && no_function(form)
}

fn is_set_count(sets: u32) -> bool
    ensures { result ≡ is_set_count sets }
{
    sets == 1
        || sets == 2
        || sets == 4
        || sets == 8
        || sets == 16
        || sets == 32
        || sets == 64
        || sets == 128
        || sets == 256
        || sets == 512
        || sets == 1024
}

fn is_line_size(line: u32) -> bool
    ensures { result ≡ is_line_size line }
{
    line == 4 || line == 8 || line == 16 || line == 32 || line == 64
}

fn costs_ok(costs: &[u64]) -> bool
    ensures { result ≡ costs_ok costs.now }
{
    for cost in costs {
        if *cost > 1_000_000 {
            return false;
        }
    }
    true
}

fn geometry_ok(timing: &Timing) -> bool
    ensures { result ≡ geometry_ok timing.now }
{
    is_set_count(timing.sets) && timing.ways > 0 && timing.ways <= 16 && is_line_size(timing.line)
}

fn timing_ok(timing: &Timing) -> bool
    ensures { result ≡ timing_ok timing.now }
{
    geometry_ok(timing)
        && timing.miss <= 1_000_000
        && timing.skipped <= 1_000_000
        && timing.register <= 1_000_000
        && costs_ok(&timing.classes)
}

pub(crate) fn may_timing(form: &Form, timing: &Timing) -> bool
    ensures { result ≡ may form.now (line.Timing timing.now) }
{
    timing_ok(timing) && has_function(form) && no_timing(form)
}

fn is_taken(param: &ParamRange, others: &[ParamRange]) -> bool
    ensures { result ≡ is_taken param.now others.now }
{
    for other in others {
        if other.name.as_str().as_bytes() == param.name.as_str().as_bytes() {
            return true;
        }
        if other.register == param.register {
            return true;
        }
    }
    false
}

fn param_ok(others: &[ParamRange], param: &ParamRange) -> bool
    ensures { result ≡ param_ok others.now param.now }
{
    let low = param.low;
    let high = param.high;
    is_name(param.name.as_str().as_bytes())
        && param.register < 13
        && !is_taken(param, others)
        && low <= high
}

pub(crate) fn may_param(form: &Form, param: &ParamRange) -> bool
    ensures { result ≡ may form.now (line.Param param.now) }
{
    param_ok(form.params.as_slice(), param) && has_timing(form) && no_blocks(form)
}

fn all_small(numbers: &[u32]) -> bool
    ensures { result ≡ all_u32 numbers.now }
{
    for number in numbers {
        if u64::from(*number) >= 1 << 32 {
            return false;
        }
    }
    true
}

fn block_ok(form: &Form, number: u32, block: &ReportBlock) -> bool
    ensures { result ≡ block_ok form.now number block.now }
{
    let address = block.address;
    let points = block.points;
    number as usize == form.blocks.len()
        && u64::from(address) < 1 << 32
        && points > 0
        && all_small(block.returns.as_slice())
}

pub(crate) fn may_block(form: &Form, number: u32, block: &ReportBlock) -> bool
    ensures { result ≡ may form.now (line.Block number block.now) }
{
    block_ok(form, number, block) && has_timing(form) && no_loops(form)
}

fn after_header(loops: &[ReportLoop], header: u32) -> bool
    ensures { result ≡ after_header (last_of loops.now) header }
{
    if loops.is_empty() {
        return true;
    }
    loops[loops.len() - 1].header < header
}

fn loop_ok(form: &Form, number: u32, header: u32, depth: u32, atoms: u64) -> bool
    ensures { result ≡ loop_ok form.now number header depth atoms }
{
    let _atoms = atoms;
    number > 0
        && number as usize - 1 == form.loops.as_slice().len()
        && (header as usize) < form.blocks.len()
        && depth > 0
        && depth < 17
        && after_header(form.loops.as_slice(), header)
}

pub(crate) fn may_loop(form: &Form, number: u32, header: u32, depth: u32, atoms: u64) -> bool
    ensures { result ≡ may form.now (line.Loop number header depth atoms) }
{
    loop_ok(form, number, header, depth, atoms) && is_level(form) && no_rows(form)
}
