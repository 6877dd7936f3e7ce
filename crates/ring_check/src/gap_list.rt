// A list with a gap where it was last changed: changes that follow one another at nearly the same place move few items.
ghost use Rattle.std.specs.List.{insert, remove};
ghost use Rattle.std.specs.Prelude.{◌≡◌, ◌+◌, ◌<◌, ◌≤◌, ◌++◌, ◌^◌, IfOk, IsFalse, IsTrue, drop, length, set, slice_index, take};

use exact_plane::Memory;
use std::alloc::Global;
use std::marker::Model;

// How many cells are filled at once.
const FILLED_AT_ONCE: usize = 256;

// Numbers of two bytes. Item i is in cell i of the front where i is below `low`, and else in cell i + skip of the back. Both have as many
// cells as there is room for, so that what is moved from one to the other overlaps nothing.
#[derive(Drop)]
pub(crate) struct GapList {
    front: Vec<u16>,
    back: Vec<u16>,
    low: usize,
    skip: usize,
}

impl Model for GapList {
    ghost use Rattle.std.specs.Prelude.{◌≡◌, ◌+◌, ◌≤◌, ℕ, List, ◌++◌, drop, length, take};

    ghost Value = { List ℕ };

    ghost view = { λ list. take list.low list.front.items ++ drop (list.low + list.skip) list.back.items };

    ghost invariant = { λ list. (length list.front.items ≡ length list.back.items) × (list.low + list.skip ≤ length list.back.items) };
}

impl GapList {
    // An empty list, with room for so many items.
    pub(crate) fn with_room(alloc: Global, room: usize) -> Result<GapList, Memory>
        ensures { IfOk result (λ list. length list ≡ 0) }
    {
        Ok(GapList {
            front: cells(alloc, room)?,
            back: cells(alloc, room)?,
            low: 0,
            skip: room,
        })
    }

    // How many items there are.
    #[inline]
    pub(crate) fn len(&self) -> usize
        ensures { result ≡ length self.now }
    {
        self.back.len() - self.skip
    }

    // The item at a place.
    #[inline]
    pub(crate) fn at(&self, place: usize) -> u32
        requires { place < length self.now }
        ensures { result ≡ slice_index self.now place }
    {
        if place < self.low {
            self.front[place] as u32
        } else {
            self.back[place + self.skip] as u32
        }
    }

    // Changes the item at a place.
    pub(crate) fn set(&mut self, place: usize, item: u16)
        requires { place < length self.old }
        ensures { self.new ≡ set self.old place item }
    {
        if place < self.low {
            self.front[place] = item;
        } else {
            self.back[place + self.skip] = item;
        }
    }

    // Inserts two items at a place. It answers false, and leaves the list as it was, where there is no room for them.
    pub(crate) fn insert_two(&mut self, place: usize, first: u16, second: u16) -> bool
        requires { place ≤ length self.old }
        ensures inserted { IsTrue result → self.new ≡ insert (insert self.old place second) place first }
        ensures same { IsFalse result → self.new ≡ self.old }
        ensures small { length self.new < 2 ^ 64 }
    {
        if self.skip < 2 {
            return false;
        }
        move_gap(&mut self.front, &mut self.back, self.low, place, self.skip);
        self.front[place] = first;
        self.front[place + 1] = second;
        self.low = place + 2;
        self.skip -= 2;
        true
    }

    // Removes the items at a place and at the next.
    pub(crate) fn remove_two(&mut self, place: usize)
        requires { place + 1 < length self.old }
        ensures { self.new ≡ remove (remove self.old place) place }
    {
        let near = self.low.clamp(place, place + 2);
        move_gap(&mut self.front, &mut self.back, self.low, near, self.skip);
        self.low = place;
        self.skip += 2;
    }
}

// So many cells. They are filled by runs, since one by one takes longer.
fn cells(alloc: Global, room: usize) -> Result<Vec<u16>, Memory>
    ensures { IfOk result (λ cells. length cells.items ≡ room) }
{
    let run = [0; FILLED_AT_ONCE];
    let mut cells = Vec::with_capacity(alloc, room)?;
    while cells.len() < room {
        let more = (room - cells.len()).min(FILLED_AT_ONCE);
        cells.extend_from_slice(&run[..more])?;
    }
    Ok(cells)
}

// Moves the gap from the place `low` to another.
fn move_gap(front: &mut Vec<u16>, back: &mut Vec<u16>, low: usize, place: usize, skip: usize)
    requires same { length front.old.items ≡ length back.old.items }
    requires low { low + skip ≤ length back.old.items }
    requires place { place + skip ≤ length back.old.items }
    ensures items { take place front.new.items ++ drop (place + skip) back.new.items ≡ take low front.old.items ++ drop (low + skip) back.old.items }
    ensures front { length front.new.items ≡ length front.old.items }
    ensures back { length back.new.items ≡ length back.old.items }
{
    if place < low {
        back[place + skip..low + skip].copy_from_slice(&front[place..low]);
    } else {
        front[low..place].copy_from_slice(&back[low + skip..place + skip]);
    }
}
