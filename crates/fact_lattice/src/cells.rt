//! What all paths say of one location.

ghost use Rattle.std.specs.Prelude.{◌≡◌, ◌+◌, ◌+ℤ◌, ◌*◌, ◌&&◌, pos, neg_ℤ, int_le, nat_le, true, false};
ghost use Rattle.std.specs.Prelude.{IfSome, IfNone};
ghost use Rattle.path_facts.specs.Facts.{is_signed_word};
ghost use Rattle.fact_lattice.specs.Cells.{constant_cell, is_start_sp, joined_cell, may_span, same_origin};
ghost use Rattle.fact_lattice.specs.Cells.{shifted_cell};
ghost use Rattle.fact_lattice.specs.Cells.{all_above, same_cell};

use path_facts::Origin;

/// The least and the greatest constant over the paths, all counted from one origin.
#[derive(Clone, Copy, Debug, PartialEq, Eq, Drop)]
pub struct Range {
    pub origin: Origin,
    pub low: i32,
    pub high: i32,
}

/// The cell of a constant; none where it leaves 32 bits.
pub fn constant(value: i64) -> Option<Range>
    ensures { result ≡ constant_cell value }
{
    match i32::try_from(value) {
        Ok(value) => Some(Range {
            origin: Origin::Zero,
            low: value,
            high: value,
        }),
        Err(_) => None,
    }
}

/// An end moved by a constant; none where it leaves 32 bits.
fn moved(end: i32, by: i64) -> Option<i32>
    ensures some { IfSome result (λ z. (is_signed_word (end +ℤ by) ≡ true) × (z ≡ end +ℤ by)) }
    ensures none { IfNone result (is_signed_word (end +ℤ by) ≡ false) }
{
    match i64::from(end).checked_add(by) {
        Some(sum) => i32::try_from(sum).ok(),
        None => None,
    }
}

/// The cell with a constant added.
pub fn shift(cell: Option<Range>, by: i64) -> Option<Range>
    ensures { result ≡ shifted_cell by cell }
{
    match cell {
        None => None,
        Some(range) => match moved(range.low, by) {
            None => None,
            Some(low) => match moved(range.high, by) {
                None => None,
                Some(high) => Some(Range {
                    origin: range.origin,
                    low,
                    high,
                }),
            },
        },
    }
}

/// Whether two origins are one.
pub fn same(left: Origin, right: Origin) -> bool
    ensures { result ≡ same_origin left right }
{
    match left {
        Origin::Zero => match right {
            Origin::Zero => true,
            Origin::AtStart(_) => false,
        },
        Origin::AtStart(one) => match right {
            Origin::Zero => false,
            Origin::AtStart(other) => one == other,
        },
    }
}

/// Whether the origin is the start's r13.
pub fn is_start_sp(origin: Origin) -> bool
    ensures { result ≡ is_start_sp origin }
{
    match origin {
        Origin::Zero => false,
        Origin::AtStart(register) => register == 13,
    }
}

/// Whether a number is no more than the stack and 64 bytes above another.
fn is_near(stack: u32, low: i32, high: i32) -> bool
    ensures { result ≡ int_le high (low +ℤ pos (stack + 64)) }
{
    i64::from(high) <= i64::from(low) + i64::from(stack) + 64
}

/// Whether one cell may hold both numbers.
fn spans(stack: u32, origin: Origin, low: i32, high: i32) -> bool
    ensures { result ≡ may_span stack origin low high }
{
    low == high || (is_start_sp(origin) && is_near(stack, low, high))
}

/// What two paths say together.
pub fn join(stack: u32, left: Option<Range>, right: Option<Range>) -> Option<Range>
    ensures { result ≡ joined_cell stack left right }
{
    match left {
        None => None,
        Some(one) => match right {
            None => None,
            Some(other) => {
                let low = one.low.min(other.low);
                let high = one.high.max(other.high);
                if same(one.origin, other.origin) && spans(stack, one.origin, low, high) {
                    Some(Range {
                        origin: one.origin,
                        low,
                        high,
                    })
                } else {
                    None
                }
            }
        },
    }
}

/// Whether r13 lies in the stack or at most 64 bytes above it, where it lies between these offsets.
fn is_near_stack(stack: u32, low: i32, high: i32) -> bool
    ensures { result ≡ (int_le (neg_ℤ (pos stack)) low && int_le high (pos 64)) }
{
    -i64::from(stack) <= i64::from(low) && high <= 64
}

/// Whether a word of the stack isn't below r13, where r13's offset is no greater than this.
fn is_word_above(stack: u32, high: i32, word: u32) -> bool
    ensures { result ≡ (nat_le (4 * word) stack && int_le high (neg_ℤ (pos (4 * word)))) }
{
    4 * u64::from(word) <= u64::from(stack) && i64::from(high) <= -(4 * i64::from(word))
}

/// Whether a word isn't below r13 on any path, by r13's cell.
pub fn is_above_all(stack: u32, sp: Option<Range>, word: u32) -> bool
    ensures { result ≡ all_above stack sp word }
{
    match sp {
        None => false,
        Some(range) => {
            is_start_sp(range.origin)
                & (is_near_stack(stack, range.low, range.high)
                    & is_word_above(stack, range.high, word))
        }
    }
}

/// Whether two cells are one.
pub fn is_same(left: Option<Range>, right: Option<Range>) -> bool
    ensures { result ≡ same_cell left right }
{
    match left {
        None => match right {
            None => true,
            Some(_) => false,
        },
        Some(one) => match right {
            None => false,
            Some(other) => {
                same(one.origin, other.origin) && one.low == other.low && one.high == other.high
            }
        },
    }
}
