// Which operand of a comparison was written first: its word has them in the order of `<`, so that shows only in the registers and constants that they took.
ghost use Rattle.std.specs.Prelude.{◌≡◌, ◌≤◌, ◌-◌, nat_lt};
ghost use Rattle.std.specs.Option.{SomeIff};
ghost use Rattle.core_expr.specs.Targets.{view_comparison, is_swapped, mirrored, has_mirror};

use crate::counting::taken_behind;
use crate::writing::Comparison;
use lua_tree::BinaryOp;

// A field of a word is a register below this number, else a constant.
const FIRST_CONSTANT: u32 = 256;
// No field has a constant of a higher number.
const LAST_SMALL_CONSTANT: u32 = 255;

/// Whether a comparison was written as `>` or `>=`, with its operands the other way round. The registers below `base` are those of locals, and so many constants are taken before it.
pub fn is_swapped(comparison: &Comparison, base: usize, taken: u32) -> bool
    ensures { result ≡ is_swapped base taken (view_comparison comparison.now) }
{
    let b = comparison.b;
    let c = comparison.c;
    if !has_mirror(comparison.op) {
        return false;
    }
    match (constant_of(b), constant_of(c)) {
        // A constant that is taken next has no number above the count of those taken, and one behind it no lower one.
        (Some(first), Some(second)) => first > taken || (second == taken && first < taken),
        // A constant stands on the right where that makes the same words. The one that takes the last number that a field has is written first, since what is behind it may take a number that shows in no word.
        (Some(first), None) => {
            first != taken
                || (taken != LAST_SMALL_CONSTANT && taken_behind(&comparison.right, taken) == taken)
        }
        (None, Some(second)) => {
            second == taken
                && (taken == LAST_SMALL_CONSTANT || taken_behind(&comparison.left, taken) > taken)
        }
        // Of two values that were made here the lower register has the first.
        (None, None) => !is_local(b, base) && !is_local(c, base) && b > c,
    }
}

/// The operator that says the same with its operands the other way round.
pub fn mirrored(op: BinaryOp) -> BinaryOp
    ensures { result ≡ mirrored op }
{
    match op {
        BinaryOp::Lt => BinaryOp::Gt,
        BinaryOp::Le => BinaryOp::Ge,
        op => op,
    }
}

fn has_mirror(op: BinaryOp) -> bool
    ensures { result ≡ has_mirror op }
{
    op == BinaryOp::Lt || op == BinaryOp::Le
}

// The number of the constant that a field has.
fn constant_of(field: u32) -> Option<u32>
    ensures { SomeIff result (256 ≤ field) (field - 256) }
{
    field.checked_sub(FIRST_CONSTANT)
}

fn is_local(register: u32, base: usize) -> bool
    ensures { result ≡ nat_lt register base }
{
    (register as usize) < base
}
