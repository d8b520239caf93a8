//! Names of what was read.

ghost use Rattle.std.specs.Prelude.{◌≡◌, ◌||◌, ◌&&◌, ◌==◌, [], nat_le, nat_lt, length};
ghost use Rattle.report_rules.specs.Following.{atom_exists, is_letter, is_name, is_tail, names_itself, param_exists, point_exists, stack_of, u32_ok, var_exists, vars_exist, word_exists};

use crate::forms::Form;
use linear_rows::{RowTerm, Var};
use report_lines::place_in;
use wsym_terms::ParamRange;

fn is_letter(byte: u8) -> bool
    ensures { result ≡ is_letter byte }
{
    (byte > 64 && byte < 91) || (byte > 96 && byte < 123)
}

fn is_name_byte(byte: u8) -> bool
    ensures { result ≡ (is_letter byte || (nat_lt 47 byte && nat_lt byte 58) || byte == 95) }
{
    is_letter(byte) || (byte > 47 && byte < 58) || byte == 95
}

fn is_tail(room: u32, bytes: &[u8]) -> bool
    ensures { result ≡ is_tail room bytes.now }
{
    match bytes.split_first() {
        Some((first, rest)) => {
            if room == 0 {
                false
            } else if is_name_byte(*first) {
                is_tail(room - 1, rest)
            } else {
                false
            }
        }
        None => true,
    }
}

pub(crate) fn is_name(bytes: &[u8]) -> bool
    ensures { result ≡ is_name bytes.now }
{
    match bytes.split_first() {
        Some((first, rest)) => is_letter(*first) && is_tail(15, rest),
        None => false,
    }
}

fn names_itself(place: u32, found: Option<u32>) -> bool
    ensures { result ≡ names_itself [] place found }
{
    match found {
        Some(found) => found == place,
        None => false,
    }
}

pub(crate) fn param_exists(params: &[ParamRange], place: u32) -> bool
    ensures { result ≡ param_exists params.now place }
{
    match params.get(place as usize) {
        Some(param) => {
            let name = param.name.as_str().as_bytes();
            is_name(name) && names_itself(place, place_in(params, name))
        }
        None => false,
    }
}

fn word_exists(stack: u32, offset: i32) -> bool
    ensures { result ≡ word_exists stack offset }
{
    let size = offset.unsigned_abs();
    offset < 0 && size <= stack && size < 1 << 31 && size % 4 == 0
}

fn stack_of(form: &Form) -> u32
    ensures { result ≡ stack_of form.now.function }
{
    match form.function {
        Some(function) => function.stack,
        None => 0,
    }
}

fn count_exists(form: &Form, id: u32) -> bool
    ensures { result ≡ (u32_ok id && nat_lt 0 id && nat_le id (length form.now.loops)) }
{
    id > 0 && id as usize <= form.loops.as_slice().len()
}

fn var_exists(form: &Form, var: Var) -> bool
    ensures { result ≡ var_exists form.now var }
{
    match var {
        Var::Register(register) => register < 15,
        Var::Word(offset) => word_exists(stack_of(form), offset),
        Var::Param(place) => param_exists(form.params.as_slice(), place),
        Var::StartSp => true,
        Var::Count(id) => count_exists(form, id),
    }
}

pub(crate) fn vars_exist(form: &Form, terms: &[RowTerm]) -> bool
    ensures { result ≡ vars_exist form.now terms.now }
{
    for term in terms {
        if !var_exists(form, term.var) {
            return false;
        }
    }
    true
}

pub(crate) fn point_exists(form: &Form, block: u32, index: u32) -> bool
    ensures { result ≡ point_exists form.now block index }
{
    match form.blocks.as_slice().get(block as usize) {
        Some(found) => index < found.points,
        None => false,
    }
}

pub(crate) fn atom_exists(form: &Form, id: u32, atom: u32) -> bool
    ensures { result ≡ atom_exists form.now id atom }
{
    if id == 0 {
        return false;
    }
    match form.loops.as_slice().get(id as usize - 1) {
        Some(each) => (atom as usize) < each.bound.atoms.len(),
        None => false,
    }
}
