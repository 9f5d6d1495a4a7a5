//! Filling an object from the items of its initialiser (C90 6.5.7).

use crate::frame::{Frame, Slot};
use crate::item::{Item, ItemForm, is_one_text, is_same_record, place_of, reversed};
use crate::sort::{Elements, Sort, sort_of};
use crate::value::{character, fitted, text_pointer, wrong};
use c_tree::{Initial, Piece, TExpr};
use c_types::{LARGEST, TypeId, TypeTable};
use check_refusal::{CheckRefused, CheckRule, broken};
use fsc_base::{Bytes, Place};
use sqlite_items::Items;
use std::alloc::Global;

/// A loop that takes or adds something kept in memory each turn has fewer turns.
const TURNS: u64 = 0xffff_ffff_ffff_ffff;

/// An initialiser laid out.
#[derive(Drop)]
pub struct LaidOut {
    /// In order of text.
    pub pieces: Items<Piece>,
    /// The least number of elements that holds all pieces, where the object is an array of unknown size; else 0.
    pub count: u32,
    /// The drafts of the strings whose bytes became pieces, so that they stand for no object.
    pub spent: Items<u32>,
}

/// Items in braces that are not taken yet, the next one last.
#[derive(Drop)]
struct Opened {
    items: Items<Initial>,
    /// How many frames there were before that of the braces.
    depth: usize,
}

/// An object that is being filled.
#[derive(Drop)]
struct Filling {
    alloc: Global,
    is_static: bool,
    pieces: Items<Piece>,
    spent: Items<u32>,
    /// What is being filled, the innermost last.
    frames: Vec<Frame>,
    /// The braces that are open, the innermost last.
    opened: Vec<Opened>,
    /// The first byte behind all pieces.
    end: u64,
}

/// What comes next.
#[derive(Clone, Copy, Debug, PartialEq, Eq)]
enum Next {
    Item(Item),
    /// The innermost braces are closed.
    Close,
    /// All are closed.
    Done,
}

impl Filling {
    /// Nothing is filled yet. It takes no memory.
    fn new(alloc: Global, is_static: bool) -> Filling {
        Filling {
            alloc,
            is_static,
            pieces: Items::new(alloc),
            spent: Items::new(alloc),
            frames: Vec::new(alloc),
            opened: Vec::new(alloc),
            end: 0,
        }
    }

    /// A piece. One behind the largest object is only counted.
    fn add(
        &mut self,
        slot: Slot,
        size: u32,
        is_record: bool,
        value: TExpr,
    ) -> Result<(), CheckRefused> {
        let end = slot.offset.saturating_add(u64::from(size));
        self.end = self.end.max(end);
        if end <= LARGEST {
            self.pieces.push(Piece {
                offset: slot.offset as u32,
                size,
                first: slot.first,
                count: slot.count,
                is_record,
                value,
            })?;
        }
        Ok(())
    }

    /// A value of a scalar of so many bytes. K14 where it does not fit, or is not constant where it has to be.
    fn put(
        &mut self,
        types: &TypeTable,
        slot: Slot,
        size: u32,
        e: TExpr,
        place: Place,
    ) -> Result<(), CheckRefused> {
        let value = fitted(self.alloc, types, slot.kind, e, self.is_static, place)?;
        let size = if slot.count == 0 { size } else { 4 };
        self.add(slot, size, false, value)
    }

    /// A whole struct or union of so many bytes. K14 where it is of another type, or where the object is static.
    fn put_record(
        &mut self,
        types: &TypeTable,
        slot: Slot,
        size: u32,
        e: TExpr,
        place: Place,
    ) -> Result<(), CheckRefused> {
        if self.is_static || !is_same_record(types, slot.kind, e.kind) {
            return Err(wrong(place));
        }
        self.add(slot, size, true, e)
    }

    /// An expression for a part of the object.
    fn one(
        &mut self,
        types: &TypeTable,
        slot: Slot,
        e: TExpr,
        place: Place,
    ) -> Result<(), CheckRefused> {
        match sort_of(types, slot.kind) {
            Sort::Scalar(size) => self.put(types, slot, size, e, place),
            Sort::Struct(size) | Sort::Union(size) => self.put_record(types, slot, size, e, place),
            Sort::Array(_) | Sort::Neither => Err(wrong(place)),
        }
    }

    /// A string for a part of the object: its characters for an array of these, and else a pointer to them.
    fn text(
        &mut self,
        types: &mut TypeTable,
        slot: Slot,
        bytes: Bytes,
        draft: u32,
        place: Place,
    ) -> Result<(), CheckRefused> {
        match sort_of(types, slot.kind) {
            Sort::Scalar(size) => {
                let length = bytes.as_slice().len();
                let e = text_pointer(self.alloc, types, length, draft, place)?;
                self.put(types, slot, size, e, place)
            }
            Sort::Array(elements) => {
                self.characters(types, slot, elements, bytes.as_slice(), place)?;
                self.spent.push(draft)?;
                Ok(())
            }
            Sort::Struct(_) | Sort::Union(_) | Sort::Neither => Err(wrong(place)),
        }
    }

    /// The characters of a string, one piece each, and the zero behind them where there is room for it. K14 where they are too many,
    /// or the elements are no characters.
    fn characters(
        &mut self,
        types: &TypeTable,
        slot: Slot,
        elements: Elements,
        bytes: &[u8],
        place: Place,
    ) -> Result<(), CheckRefused> {
        let length = bytes.len() as u64;
        let room = u64::from(elements.count);
        if !elements.are_characters || (room != 0 && length > room) {
            return Err(wrong(place));
        }
        let mut offset = slot.offset;
        for byte in bytes {
            self.byte(types, elements.of, offset, *byte, place)?;
            offset = offset.saturating_add(1);
        }
        if room == 0 || length < room {
            self.byte(types, elements.of, offset, 0, place)?;
        }
        Ok(())
    }

    /// One character.
    fn byte(
        &mut self,
        types: &TypeTable,
        kind: TypeId,
        offset: u64,
        byte: u8,
        place: Place,
    ) -> Result<(), CheckRefused> {
        let value = character(types, kind, byte, place);
        self.add(Slot::at(kind, offset), 1, false, value)
    }

    /// Items in braces for a part of the object. Those of an array, struct or union are taken later.
    fn many(
        &mut self,
        types: &mut TypeTable,
        slot: Slot,
        items: Items<Initial>,
        place: Place,
    ) -> Result<(), CheckRefused> {
        match sort_of(types, slot.kind) {
            Sort::Scalar(_) => self.single(types, slot, items, place),
            Sort::Array(elements) => {
                if elements.are_characters && is_one_text(items.as_slice()) {
                    self.single(types, slot, items, place)
                } else {
                    self.open_braces(slot, items)
                }
            }
            Sort::Struct(_) | Sort::Union(_) => self.open_braces(slot, items),
            Sort::Neither => Err(wrong(place)),
        }
    }

    /// The one item in the braces of a scalar, or the string in those of an array. K14 at the first that is too many, or at braces in
    /// the braces.
    fn single(
        &mut self,
        types: &mut TypeTable,
        slot: Slot,
        items: Items<Initial>,
        place: Place,
    ) -> Result<(), CheckRefused> {
        check_single(items.as_slice(), place)?;
        let mut items = items;
        match items.pop() {
            Some(Initial::One(e, place)) => self.one(types, slot, e, place),
            Some(Initial::Text(bytes, draft, place)) => self.text(types, slot, bytes, draft, place),
            Some(Initial::Many(_, place)) => Err(wrong(place)),
            None => Err(wrong(place)),
        }
    }

    /// Braces whose items fill the parts of an array, struct or union.
    fn open_braces(&mut self, slot: Slot, items: Items<Initial>) -> Result<(), CheckRefused> {
        let depth = self.frames.len();
        let items = reversed(self.alloc, items)?;
        self.frames.push(Frame::new(slot, true))?;
        self.opened.push(Opened { items, depth })?;
        Ok(())
    }

    /// A whole item for a part of the object.
    fn target(
        &mut self,
        types: &mut TypeTable,
        slot: Slot,
        given: Initial,
    ) -> Result<(), CheckRefused> {
        match given {
            Initial::One(e, place) => self.one(types, slot, e, place),
            Initial::Text(bytes, draft, place) => self.text(types, slot, bytes, draft, place),
            Initial::Many(items, place) => self.many(types, slot, items, place),
        }
    }

    /// What comes next.
    fn look(&self) -> Next {
        match self.opened.last() {
            Some(opened) => match opened.items.as_slice().last() {
                Some(item) => Next::Item(Item::of(item)),
                None => Next::Close,
            },
            None => Next::Done,
        }
    }

    /// The innermost braces end, and what was filled from their items.
    fn close(&mut self) {
        if let Some(Opened { items: _, depth }) = self.opened.pop() {
            self.frames.truncate(depth);
        }
    }

    /// The part that comes next of the innermost frame, which goes on behind it.
    fn next_slot(&mut self, types: &TypeTable) -> Option<Slot> {
        let frame = self.frames.last().copied()?;
        let (slot, next) = frame.next_slot(types)?;
        if let Some(top) = self.frames.last_mut() {
            top.next = next;
        }
        Some(slot)
    }

    /// A frame without braces ends where all its parts are filled. K14 at the item where a frame in braces does.
    fn leave(&mut self, place: Place) -> Result<(), CheckRefused> {
        match self.frames.pop() {
            Some(frame) => {
                if frame.is_braced {
                    Err(wrong(place))
                } else {
                    Ok(())
                }
            }
            None => Err(wrong(place)),
        }
    }

    /// The next item is taken for a part of the object.
    fn take(&mut self, types: &mut TypeTable, slot: Slot) -> Result<(), CheckRefused> {
        let Some(opened) = self.opened.last_mut() else {
            return Ok(());
        };
        match opened.items.pop() {
            Some(item) => self.target(types, slot, item),
            None => Ok(()),
        }
    }

    /// The next item fills the next part, or goes to that part's parts; or the frame is left.
    fn step(&mut self, types: &mut TypeTable, item: Item) -> Result<(), CheckRefused> {
        match self.next_slot(types) {
            Some(slot) => {
                if item.fills(types, slot) {
                    self.take(types, slot)
                } else {
                    self.frames.push(Frame::new(slot, false))?;
                    Ok(())
                }
            }
            None => self.leave(item.place),
        }
    }

    /// Until all braces are closed.
    fn run(&mut self, types: &mut TypeTable) -> Result<(), CheckRefused> {
        for _ in 0..TURNS {
            match self.look() {
                Next::Item(item) => self.step(types, item)?,
                Next::Close => self.close(),
                Next::Done => return Ok(()),
            }
        }
        Err(CheckRefused::NoMemory)
    }

    /// How many elements an array of unknown size has; 0 of every other object. L05 where they are larger than 2^27 bytes.
    fn count(&self, types: &TypeTable, kind: TypeId, place: Place) -> Result<u32, CheckRefused> {
        match sort_of(types, kind) {
            Sort::Array(elements) => {
                if elements.count == 0 {
                    least_count(self.end, elements.size, place)
                } else {
                    Ok(0)
                }
            }
            Sort::Scalar(_) | Sort::Struct(_) | Sort::Union(_) | Sort::Neither => Ok(0),
        }
    }

    /// What was filled.
    fn laid_out(self, count: u32) -> LaidOut {
        let Filling { pieces, spent, .. } = self;
        LaidOut {
            pieces,
            count,
            spent,
        }
    }
}

/// The least number of elements that holds so many bytes. L05 where they are larger than 2^27 bytes.
fn least_count(end: u64, size: u32, place: Place) -> Result<u32, CheckRefused> {
    if size == 0 || end > LARGEST {
        return Err(broken(CheckRule::L05, place));
    }
    let size = u64::from(size);
    let count = end / size + u64::from(end % size != 0);
    if count.saturating_mul(size) > LARGEST {
        return Err(broken(CheckRule::L05, place));
    }
    Ok(count as u32)
}

/// K14 where items in braces are more than one, or are in braces again.
fn check_single(items: &[Initial], place: Place) -> Result<(), CheckRefused> {
    match items {
        [] => Err(wrong(place)),
        [first, rest @ ..] => {
            let item = Item::of(first);
            if item.form == ItemForm::Many {
                return Err(wrong(item.place));
            }
            match rest {
                [] => Ok(()),
                [second, ..] => Err(wrong(place_of(second))),
            }
        }
    }
}

/// Lays an initialiser out for an object of that type (C90 6.5.7): one piece for each scalar that it fills, one for each struct or
/// union that an expression fills as a whole, and one for each character of a string that fills an array; offsets and sizes are in
/// bytes. K14 at an item that is too many, that does not fit, or that is not constant where the object is static; L05 at the
/// initialiser where the array of unknown size that it completes is larger than 2^27 bytes, and at a string that is. Otherwise it is
/// refused only for want of memory.
pub fn layout_init(
    alloc: Global,
    types: &mut TypeTable,
    kind: TypeId,
    given: Initial,
    is_static: bool,
) -> Result<LaidOut, CheckRefused> {
    let place = place_of(&given);
    let mut filling = Filling::new(alloc, is_static);
    filling.target(types, Slot::at(kind, 0), given)?;
    filling.run(types)?;
    let count = filling.count(types, kind, place)?;
    Ok(filling.laid_out(count))
}
