ghost use Rattle.std.specs.Prelude.{◌≡◌, ◌-◌, ◌<◌, ◌≤◌, ◌^◌, ◌↔◌, ◌++◌, IfOk, IsTrue, length, vec_capacity};
ghost use Rattle.std.specs.List.{range_with_len};
ghost use Rattle.meshes.specs.Side.{HasSide, HasSidesOnce, tri_at};
ghost use Rattle.tri_mesh.specs.Neighbours.{IsOwner, KeepsNeighbours};
ghost use Rattle.tri_mesh.specs.Outward.{IsRooted, outward_at};
ghost use Rattle.tri_mesh.specs.Search.{IsDone, IsGrown, IsReached, IsSearch, IsSideDone, waiting};

use crate::outward::Outward;
use crate::triangle::side_number;
use exact_plane::Memory;
use meshes::Tri;
use std::alloc::Global;

// The triangles that were reached, in their order, and for each of them its place in it.
#[derive(Drop)]
pub(crate) struct Search {
    pub order: Vec<Outward>,
    pub places: Vec<u32>,
}

impl Search {
    // The search from one triangle that has reached all. It goes on from the triangle that it reached last.
    pub(crate) fn from(
        alloc: Global,
        tris: &[Tri],
        rows: &[[Option<u32>; 3]],
        home: u32,
    ) -> Result<Search, Memory>
        requires keeps { KeepsNeighbours tris.now rows.now }
        requires home { home < length tris.now }
        ensures { IfOk result (λ search. IsRooted tris.now home search.order.items search.places.items) }
    {
        let mut search = Search::start(alloc, tris, home)?;
        let mut later = Vec::new(alloc);
        let mut next = Some(0u32);
        while let Some(place) = next {
            let first = search.order.len() as u32;
            search.expand(tris, rows, place);
            next = newest(&mut later, first, search.order.len() as u32)?;
        }
        Ok(search)
    }

    // The search that has reached one triangle.
    fn start(alloc: Global, tris: &[Tri], home: u32) -> Result<Search, Memory>
        requires few { length tris.now < 2 ^ 30 }
        requires home { home < length tris.now }
        ensures search { IfOk result (λ search. IsSearch tris.now search.order.items search.places.items) }
        ensures one { IfOk result (λ search. length search.order.items ≡ 1) }
        ensures first { IfOk result (λ search. (outward_at search.order.items 0).tri ≡ home) }
        ensures room { IfOk result (λ search. length tris.now ≤ vec_capacity search.order) }
    {
        let places = vec![in alloc; 0; tris.len()]?;
        let mut order = Vec::with_capacity(alloc, tris.len())?;
        order.push_reserved(Outward {
            tri: home,
            toward: 0,
            side: 0,
        });
        Ok(Search { order, places })
    }

    // Reaches the triangles that share a side with the one at a place.
    fn expand(&mut self, tris: &[Tri], rows: &[[Option<u32>; 3]], place: u32)
        requires keeps { KeepsNeighbours tris.now rows.now }
        requires search { IsSearch tris.now self.old.order.items self.old.places.items }
        requires place { place < length self.old.order.items }
        requires room { length tris.now ≤ vec_capacity self.old.order }
        ensures search { IsSearch tris.now self.new.order.items self.new.places.items }
        ensures grown { IsGrown self.old.order.items self.new.order.items }
        ensures same_room { vec_capacity self.new.order ≡ vec_capacity self.old.order }
        ensures done { IsDone tris.now self.new.order.items (outward_at self.old.order.items place).tri }
    {
        let k = self.order[place as usize].tri;
        let tri = tris[k as usize];
        let row = rows[k as usize];
        self.reach(tris, place, row[0], tri.b, tri.a);
        self.reach(tris, place, row[1], tri.c, tri.b);
        self.reach(tris, place, row[2], tri.a, tri.c);
    }

    // Reaches the triangle with the side from one corner to another, if there is one, from the triangle at a place, which
    // has this side in the other direction.
    fn reach(&mut self, tris: &[Tri], place: u32, owner: Option<u32>, from: u32, to: u32)
        requires sides { HasSidesOnce tris.now }
        requires search { IsSearch tris.now self.old.order.items self.old.places.items }
        requires place { place < length self.old.order.items }
        requires room { length tris.now ≤ vec_capacity self.old.order }
        requires owner { IsOwner tris.now from to owner }
        requires back { HasSide (tri_at tris.now (outward_at self.old.order.items place).tri) to from }
        ensures search { IsSearch tris.now self.new.order.items self.new.places.items }
        ensures grown { IsGrown self.old.order.items self.new.order.items }
        ensures same_room { vec_capacity self.new.order ≡ vec_capacity self.old.order }
        ensures done { IsSideDone tris.now self.new.order.items from to }
    {
        if let Some(k) = owner {
            self.add(tris, place, k, from, to);
        }
    }

    // Reaches a triangle with this side, where it is new.
    fn add(&mut self, tris: &[Tri], place: u32, k: u32, from: u32, to: u32)
        requires search { IsSearch tris.now self.old.order.items self.old.places.items }
        requires place { place < length self.old.order.items }
        requires room { length tris.now ≤ vec_capacity self.old.order }
        requires in_list { k < length tris.now }
        requires has { HasSide (tri_at tris.now k) from to }
        requires back { HasSide (tri_at tris.now (outward_at self.old.order.items place).tri) to from }
        ensures search { IsSearch tris.now self.new.order.items self.new.places.items }
        ensures grown { IsGrown self.old.order.items self.new.order.items }
        ensures same_room { vec_capacity self.new.order ≡ vec_capacity self.old.order }
        ensures reached { IsReached self.new.order.items k }
    {
        if !self.has(tris, k) {
            let side = side_number(&tris[k as usize], from, to).unwrap();
            self.places[k as usize] = self.order.len() as u32;
            self.order.push_reserved(Outward {
                tri: k,
                toward: place,
                side,
            });
        }
    }

    // Whether a triangle was reached: then it is at its place.
    fn has(&self, tris: &[Tri], k: u32) -> bool
        requires search { IsSearch tris.now self.now.order.items self.now.places.items }
        requires in_list { k < length tris.now }
        ensures { IsTrue result ↔ IsReached self.now.order.items k }
    {
        // The prover learns from this call how many triangles there can be.
        let _count = tris.len();
        self.order[self.places[k as usize] as usize].tri == k
    }
}

// The place to go on from: the last one from `first` to `end`, of which the others wait, or else the last that waits.
fn newest(later: &mut Vec<u32>, first: u32, end: u32) -> Result<Option<u32>, Memory>
    requires order { first ≤ end }
    ensures waiting { IfOk result (λ next. waiting next later.new.items ≡ later.old.items ++ range_with_len first (end - first)) }
{
    if first == end {
        return Ok(later.pop());
    }
    for place in first..end - 1 {
        later.push(place)?;
    }
    Ok(Some(end - 1))
}
