//! How the members of a struct or union lie (C90 6.5.2.1).

ghost use Rattle.std.specs.Prelude.{◌≡◌, ◌+◌, ◌*◌, ◌-◌, ◌/◌, ◌<◌, ◌≤◌, [], length, map, true, false, Some, Err, IfOk, IfErr};
ghost use Rattle.c_types.specs.Layouts.{next_multiple, is_bit_field, offset_of, end_at, align_of_part, struct_places, struct_end, union_end, placed, greatest_align, makes_fat, kinds_before, member_of_place, places_of, end_of, is_fat_word, record_kinds, record_layout, record_size, IsReason};
ghost use Rattle.c_types.specs.Periods.{period_of};
ghost use Rattle.std.specs.List.{list_any};
ghost use Rattle.c_types.specs.Parts.{part_in, parts_in, place_in, places_in, AreModest};
ghost use Rattle.c_types.specs.Built.{IsModest};

use crate::layout::{LARGEST, Layout, LayoutNo};
use crate::node::{Field, Member, Members};
use fsc_base::{Name, NoMemory, WordKind};
use std::alloc::Global;
use type_desc::{Kinds, least_period};

/// A field with the layout of its type.
#[derive(Clone, Copy)]
pub(crate) struct PartOf<'a> {
    pub field: &'a Field,
    pub layout: &'a Layout,
}

/// A field where it lies.
#[derive(Clone, Copy)]
pub(crate) struct Place<'a> {
    pub offset: u32,
    pub part: PartOf<'a>,
}

/// The least multiple of `align` that is at least `at`.
#[tactic(auto, using(crate::proofs::Multiples::multiple_fits))]
pub(crate) fn next_multiple(align: u32, at: u32) -> u32
    requires some { 0 < align }
    requires few { align ≤ 4 }
    requires within { at ≤ 268435456 }
    ensures multiple { result ≡ next_multiple align at }
    ensures near { result ≤ at + 3 }
{
    (at + (align - 1)) / align * align
}

/// Where a struct's field lies when so many bytes lie before it.
fn offset_behind(end: u32, part: &PartOf) -> u32
    requires within { end ≤ 134217728 }
    requires modest { IsModest part.now.layout.now }
    ensures offset { result ≡ offset_of end (part_in part.now) }
    ensures near { result ≤ end + 3 }
{
    if part.field.count == 0 {
        return next_multiple(part.layout.align, end);
    }
    if part.field.first == 0 {
        next_multiple(4, end)
    } else {
        end.saturating_sub(4)
    }
}

/// Where the bytes end that a field takes from an offset on.
fn end_behind(offset: u32, part: &PartOf) -> u32
    requires within { offset ≤ 134217731 }
    requires modest { IsModest part.now.layout.now }
    ensures end { result ≡ end_at offset (part_in part.now) }
{
    if part.field.count == 0 {
        offset + part.layout.size
    } else {
        offset + 4
    }
}

/// A field's alignment.
fn align_in(part: &PartOf) -> u32
    ensures { result ≡ align_of_part (part_in part.now) }
{
    if part.field.count == 0 {
        part.layout.align
    } else {
        4
    }
}

/// The greatest alignment of a field.
pub(crate) fn align_of_parts(parts: &[PartOf]) -> u32
    requires { AreModest (parts_in parts.now) }
    ensures align { result ≡ greatest_align (parts_in parts.now) }
    ensures some { 0 < result }
    ensures few { result ≤ 4 }
{
    let mut align = 1;
    for part in parts {
        align = align.max(align_in(part));
    }
    align
}

/// A struct's members where they lie, and where they end; Large only where that is above 2^27.
pub(crate) fn place_struct<'a>(
    alloc: Global,
    parts: &[PartOf<'a>],
) -> Result<(Vec<Place<'a>>, u32), LayoutNo>
    requires { AreModest (parts_in parts.now) }
    ensures places { IfOk result (λ p. places_in p.0.items ≡ struct_places 0 (parts_in parts.now)) }
    ensures end { IfOk result (λ p. p.1 ≡ struct_end 0 (parts_in parts.now)) }
    ensures within { IfOk result (λ p. p.1 ≤ 134217728) }
    ensures refused { IfErr result (IsReason (Some (struct_end 0 (parts_in parts.now)))) }
{
    let mut places = Vec::new(alloc);
    let mut end = 0;
    for part in parts {
        let offset = offset_behind(end, part);
        end = end_behind(offset, part);
        if u64::from(end) > LARGEST {
            return Err(LayoutNo::Large);
        }
        places.push(Place {
            offset,
            part: *part,
        })?;
    }
    Ok((places, end))
}

/// A union's members, which all lie at 0, and where the greatest ends.
pub(crate) fn place_union<'a>(
    alloc: Global,
    parts: &[PartOf<'a>],
) -> Result<(Vec<Place<'a>>, u32), LayoutNo>
    requires { AreModest (parts_in parts.now) }
    ensures places { IfOk result (λ p. places_in p.0.items ≡ map (placed 0) (parts_in parts.now)) }
    ensures end { IfOk result (λ p. p.1 ≡ union_end (parts_in parts.now)) }
    ensures within { IfOk result (λ p. p.1 ≤ 134217728) }
    ensures refused { IfErr result (IsReason (Some (union_end (parts_in parts.now)))) }
{
    let mut places = Vec::new(alloc);
    let mut end = 0;
    for part in parts {
        end = end.max(end_behind(0, part));
        places.push(Place {
            offset: 0,
            part: *part,
        })?;
    }
    Ok((places, end))
}

/// The members of a struct or union where they lie, and where the last or the greatest ends; Large only where that is above 2^27.
fn place_all<'a>(
    alloc: Global,
    is_union: bool,
    parts: &[PartOf<'a>],
) -> Result<(Vec<Place<'a>>, u32), LayoutNo>
    requires { AreModest (parts_in parts.now) }
    ensures places { IfOk result (λ p. places_in p.0.items ≡ places_of is_union (parts_in parts.now)) }
    ensures end { IfOk result (λ p. p.1 ≡ end_of is_union (parts_in parts.now)) }
    ensures within { IfOk result (λ p. p.1 ≤ 134217728) }
    ensures refused { IfErr result (IsReason (Some (end_of is_union (parts_in parts.now)))) }
{
    if is_union {
        place_union(alloc, parts)
    } else {
        place_struct(alloc, parts)
    }
}

/// Whether word `w` of a type with these kinds is fat.
fn is_fat_at(kinds: &[WordKind], w: usize) -> bool
    ensures { result ≡ is_fat_word kinds.now w }
{
    if kinds.is_empty() {
        return false;
    }
    match kinds[w % kinds.len()] {
        WordKind::Fat => true,
        WordKind::Narrow => false,
    }
}

/// Whether a member that is no bit-field has a fat word there.
fn has_fat(place: &Place, w: usize) -> bool
    ensures { result ≡ makes_fat w (place_in place.now) }
{
    let first = (place.offset / 4) as usize;
    let layout = place.part.layout;
    let count = (layout.size / 4) as usize;
    place.part.field.count == 0
        && first <= w
        && w < first + count
        && is_fat_at(layout.kinds.as_slice(), w - first)
}

/// Whether some member has a fat word there.
#[tactic(auto, using(crate::proofs::Looking::looked_step, crate::proofs::Looking::looked_found, crate::proofs::Looking::looked_all))]
fn is_fat_there(places: &[Place], w: usize) -> bool
    ensures { result ≡ list_any (makes_fat w) (places_in places.now) }
{
    for place in places {
        if has_fat(place, w) {
            return true;
        }
    }
    false
}

/// The kinds of the first `count` words.
fn word_kinds(alloc: Global, places: &[Place], count: usize) -> Result<Vec<WordKind>, NoMemory>
    ensures { IfOk result (λ kinds. kinds.items ≡ kinds_before (places_in places.now) count) }
{
    let mut kinds = Vec::new(alloc);
    for w in 0..count {
        let kind = if is_fat_there(places, w) {
            WordKind::Fat
        } else {
            WordKind::Narrow
        };
        kinds.push(kind)?;
    }
    Ok(kinds)
}

/// Kinds in their least period.
#[tactic(auto, using(crate::proofs::Shapes::period_found))]
fn period(alloc: Global, kinds: &[WordKind]) -> Result<Kinds, NoMemory>
    ensures { IfOk result (λ period. period ≡ period_of kinds.now) }
{
    if kinds.is_empty() {
        return Kinds::from_slice(alloc, kinds);
    }
    let count = least_period(kinds);
    Kinds::from_slice(alloc, &kinds[..count])
}

/// The shape of a struct or union of that size.
fn shape_kinds(alloc: Global, places: &[Place], size: u32) -> Result<Kinds, NoMemory>
    ensures { IfOk result (λ kinds. kinds ≡ record_kinds (places_in places.now) size) }
{
    if size % 4 != 0 {
        return Kinds::from_slice(alloc, &[WordKind::Narrow]);
    }
    if size > 4096 {
        return Kinds::from_slice(alloc, &[WordKind::Fat]);
    }
    let kinds = word_kinds(alloc, places, (size / 4) as usize)?;
    period(alloc, kinds.as_slice())
}

/// The same; it has at most 1,024 words.
fn record_shape(alloc: Global, places: &[Place], size: u32) -> Result<Kinds, NoMemory>
    ensures kinds { IfOk result (λ kinds. kinds ≡ record_kinds (places_in places.now) size) }
    ensures few { IfOk result (λ kinds. length kinds ≤ 1024) }
{
    shape_kinds(alloc, places, size)
}

/// The members with copies of their names.
fn members_at(alloc: Global, places: &[Place]) -> Result<Vec<Member>, NoMemory>
    ensures { IfOk result (λ members. members.items ≡ map member_of_place (places_in places.now)) }
{
    let mut members = Vec::new(alloc);
    for place in places {
        let field = place.part.field;
        members.push(Member {
            name: Name::from_slice(alloc, field.name.as_slice())?,
            kind: field.kind,
            offset: place.offset,
            first: field.first,
            count: field.count,
        })?;
    }
    Ok(members)
}

/// The layout and the members of a complete struct or union. Large only where it is larger than 2^27 bytes.
#[tactic(auto, using(crate::proofs::Placing::end_reason))]
pub(crate) fn lay_out(
    alloc: Global,
    is_union: bool,
    parts: &[PartOf],
) -> Result<(Layout, Members), LayoutNo>
    requires { AreModest (parts_in parts.now) }
    ensures layout { IfOk result (λ r. r.0 ≡ record_layout is_union (parts_in parts.now)) }
    ensures members { IfOk result (λ r. r.1 ≡ map member_of_place (places_of is_union (parts_in parts.now))) }
    ensures modest { IfOk result (λ r. IsModest r.0) }
    ensures refused { IfErr result (IsReason (Some (record_size is_union (parts_in parts.now)))) }
{
    let (places, end) = place_all(alloc, is_union, parts)?;
    let align = align_of_parts(parts);
    let size = next_multiple(align, end);
    if u64::from(size) > LARGEST {
        return Err(LayoutNo::Large);
    }
    let kinds = record_shape(alloc, places.as_slice(), size)?;
    let members = members_at(alloc, places.as_slice())?;
    let layout = Layout { size, align, kinds };
    Ok((layout, Members::from_vec(members)))
}
