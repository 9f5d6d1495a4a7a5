//! Where bit-fields begin.

ghost use Rattle.std.specs.Prelude.{◌≡◌, ◌+◌, ◌≤◌, ◌<◌};
ghost use Rattle.c_types.specs.Layouts.{next_first, bits_behind};

use crate::node::Field;

/// The first bit of a new bit-field of `count` bits behind these fields (C90 6.5.2.1): behind the bits of the one before, where that is
/// a bit-field whose unit of 32 has enough free bits, and else bit 0. In a union, and behind one of width 0, it is bit 0.
pub fn next_first(fields: &[Field], is_union: bool, count: u32, after_zero: bool) -> u32
    ensures { result ≡ next_first fields.now is_union count after_zero }
{
    if is_union || after_zero {
        return 0;
    }
    match fields.last() {
        Some(before) => first_behind(before, count),
        None => 0,
    }
}

/// Behind one field.
fn first_behind(before: &Field, count: u32) -> u32
    ensures { result ≡ bits_behind count before.now }
{
    let end = u64::from(before.first) + u64::from(before.count);
    if before.count != 0 && end + u64::from(count) <= 32 {
        end as u32
    } else {
        0
    }
}
