ghost use Rattle.std.specs.Prelude.{◌≡◌, ◌+◌, ◌*◌, ◌<◌, ◌^◌, ℕ, false, IfOk, IsTrue, None, Some};
ghost use Rattle.std.specs.Prelude.{[], ◌∷◌, ◌++◌, length, replicate, slice_index, slice_set, vec_capacity};
ghost use Rattle.meshes.specs.Side.{HasSidesOnce, tri_at};
ghost use Rattle.tri_mesh.specs.Neighbours.{AreChained, AreKept, AreLinkedRows, ArePaired, AreRowsOf, AreSeen};
ghost use Rattle.tri_mesh.specs.Neighbours.{AreShared, HasCornersBelow};
ghost use Rattle.tri_mesh.specs.Neighbours.{HasMore, HasOwner, IsLastAt, empty_row, last_up_to, mark_at, rows_linked, side_at, sides_of};

use crate::triangle::side_ends;
use exact_plane::Memory;
use meshes::Tri;
use std::alloc::Global;

// A side by its corners, the lower one first, then its triangle and its number there, and the last side before it that has the same
// higher corner.
#[derive(Clone, Copy)]
pub(crate) struct Side {
    pub low: u32,
    pub high: u32,
    pub tri: u32,
    pub number: u32,
    pub before: Option<u32>,
}

// For each triangle a row: the triangles on the other sides of its sides. No list is sorted: each corner has a mark. First that is the
// last side whose higher corner it is, from where all these are found. They are looked at corner by corner, upward, and each is then the
// mark of its lower corner, so that another one between the same corners finds it there.
pub fn neighbours(alloc: Global, tris: &[Tri]) -> Result<Vec<[Option<u32>; 3]>, Memory>
    requires once { HasSidesOnce tris.now }
    requires few { length tris.now < 2 ^ 30 }
    requires corners { (k : ℕ) → k < length tris.now → HasCornersBelow (length tris.now + 2) (tri_at tris.now k) }
    ensures count { IfOk result (λ rows. length rows.items ≡ length tris.now) }
    ensures rows { IfOk result (λ rows. AreRowsOf tris.now rows.items) }
{
    let mut marks = vec![in alloc; 0; tris.len() + 2]?;
    let befores = befores_of(alloc, tris, &mut marks)?;
    let mut rows = empty_rows(alloc, tris.len())?;
    for v in 0..marks.len() as u32 {
        link_at(&mut rows, tris, &befores, &mut marks, v);
    }
    Ok(rows)
}

// Rows with no triangles.
fn empty_rows(alloc: Global, count: usize) -> Result<Vec<[Option<u32>; 3]>, Memory>
    ensures { IfOk result (λ rows. rows.items ≡ replicate count empty_row) }
{
    let mut rows = Vec::with_capacity(alloc, count)?;
    for _ in 0..count {
        rows.push_reserved([None; 3]);
    }
    Ok(rows)
}

// For each side of the triangles how many sides there are up to the last one before it that has its higher corner, or 0. The corners,
// at first with 0, then have these numbers for the last sides of all.
fn befores_of(alloc: Global, tris: &[Tri], marks: &mut [u32]) -> Result<Vec<u32>, Memory>
    requires few { length tris.now < 2 ^ 30 }
    requires corners { (k : ℕ) → k < length tris.now → HasCornersBelow (length marks.old) (tri_at tris.now k) }
    requires none { (v : ℕ) → mark_at marks.old v ≡ None }
    ensures count { length marks.new ≡ length marks.old }
    ensures number { IfOk result (λ befores. length befores.items ≡ 3 * length tris.now) }
    ensures chained { IfOk result (λ befores. AreChained (sides_of tris.now befores.items) marks.new) }
{
    let mut befores = Vec::with_capacity(alloc, 3 * tris.len())?;
    for tri in tris {
        add(&mut befores, marks, tri.a.max(tri.b));
        add(&mut befores, marks, tri.b.max(tri.c));
        add(&mut befores, marks, tri.c.max(tri.a));
    }
    Ok(befores)
}

// Appends what a corner has, for one more side, which becomes the last one there.
fn add(befores: &mut Vec<u32>, marks: &mut [u32], high: u32)
    requires corner { high < length marks.old }
    requires few { length befores.old.items + 1 < 2 ^ 32 }
    requires room { length befores.old.items < vec_capacity befores.old }
    ensures count { length marks.new ≡ length marks.old }
    ensures befores { befores.new.items ≡ befores.old.items ++ slice_index marks.old high ∷ [] }
    ensures marks { marks.new ≡ slice_set marks.old high (length befores.old.items + 1) }
    ensures same_room { vec_capacity befores.new ≡ vec_capacity befores.old }
{
    let count = befores.len() as u32 + 1;
    befores.push_reserved(marks[high as usize]);
    marks[high as usize] = count;
}

// The last one of so many, if there is one.
fn last_up_to(count: u32) -> Option<u32>
    ensures { result ≡ last_up_to count }
{
    if count > 0 {
        return Some(count - 1);
    }
    None
}

// Side `p` of all: three of each triangle, in their order.
fn side_at(tris: &[Tri], befores: &[u32], p: u32) -> Side
    requires number { length befores.now ≡ 3 * length tris.now }
    requires place { let sides = sides_of tris.now befores.now in p < length sides }
    ensures { result ≡ side_at (sides_of tris.now befores.now) p }
{
    let tri = p / 3;
    let number = p % 3;
    let (from, to) = side_ends(&tris[tri as usize], number);
    Side {
        low: from.min(to),
        high: from.max(to),
        tri,
        number,
        before: last_up_to(befores[p as usize]),
    }
}

// Links the sides whose higher corner is `v`, where two are between the same corners, and marks the lower corners of some.
fn link_at(
    rows: &mut Vec<[Option<u32>; 3]>,
    tris: &[Tri],
    befores: &[u32],
    marks: &mut [u32],
    v: u32,
)
    requires number { length befores.now ≡ 3 * length tris.now }
    requires few { length tris.now < 2 ^ 30 }
    requires corner { v < length marks.old }
    requires paired { let sides = sides_of tris.now befores.now in ArePaired (length rows.old.items) (length marks.old) sides }
    requires linked { let sides = sides_of tris.now befores.now in AreLinkedRows (length rows.old.items) sides rows.old.items }
    requires marks { let sides = sides_of tris.now befores.now in (i p : ℕ) → mark_at marks.old i ≡ Some p → p < length sides }
    requires befores { let sides = sides_of tris.now befores.now in (p : ℕ) → p < length sides
        → IsLastAt sides (side_at sides p).high p (side_at sides p).before }
    requires last { let sides = sides_of tris.now befores.now in IsLastAt sides v (length sides) (mark_at marks.old v) }
    ensures linked { let sides = sides_of tris.now befores.now in AreLinkedRows (length rows.old.items) sides rows.new.items }
    ensures owners { let sides = sides_of tris.now befores.now in (p q : ℕ) → p < length sides → q < length sides
        → AreShared (side_at sides p) (side_at sides q) → (side_at sides p).high ≡ v → HasOwner rows.new.items (side_at sides p) }
    ensures more { HasMore rows.old.items rows.new.items }
    ensures count { length marks.new ≡ length marks.old }
    ensures marks { let sides = sides_of tris.now befores.now in (i p : ℕ) → mark_at marks.new i ≡ Some p → p < length sides }
    ensures kept { AreKept v marks.old marks.new }
{
    let mut last = last_up_to(marks[v as usize]);
    while let Some(p) = last {
        see(rows, tris, befores, marks, p);
        last = side_at(tris, befores, p).before;
    }
}

// Links side `p` with the one that is marked at its lower corner, where that is between the same corners. Else it is marked there.
fn see(rows: &mut Vec<[Option<u32>; 3]>, tris: &[Tri], befores: &[u32], marks: &mut [u32], p: u32)
    requires number { length befores.now ≡ 3 * length tris.now }
    requires place { let sides = sides_of tris.now befores.now in p < length sides }
    requires paired { let sides = sides_of tris.now befores.now in ArePaired (length rows.old.items) (length marks.old) sides }
    requires few { length tris.now < 2 ^ 30 }
    requires seen { let sides = sides_of tris.now befores.now in
        AreSeen sides (side_at sides p).high (p + 1) (length rows.old.items) (length marks.old) rows.old.items marks.old }
    ensures seen { let sides = sides_of tris.now befores.now in
        AreSeen sides (side_at sides p).high p (length rows.old.items) (length marks.old) rows.new.items marks.new }
    ensures more { HasMore rows.old.items rows.new.items }
    ensures kept { let sides = sides_of tris.now befores.now in AreKept (side_at sides p).high marks.old marks.new }
{
    let side = side_at(tris, befores, p);
    let corner = side.low as usize;
    if !link_with(rows, tris, befores, &side, last_up_to(marks[corner])) {
        marks[corner] = p + 1;
    }
}

// Links a side with another one, if there is one and it is between the same corners, and answers whether it was so.
fn link_with(
    rows: &mut Vec<[Option<u32>; 3]>,
    tris: &[Tri],
    befores: &[u32],
    s: &Side,
    other: Option<u32>,
) -> bool
    requires number { length befores.now ≡ 3 * length tris.now }
    requires s { (s.now.tri < length rows.old.items) × (s.now.number < 3) }
    requires sides { let sides = sides_of tris.now befores.now in (p : ℕ) → p < length sides
        → ((side_at sides p).tri < length rows.old.items) × ((side_at sides p).number < 3) }
    requires other { let sides = sides_of tris.now befores.now in (q : ℕ) → other ≡ Some q → q < length sides }
    ensures linked { let sides = sides_of tris.now befores.now in
        IsTrue result → (q : ℕ) × (other ≡ Some q) × AreShared s.now (side_at sides q)
        × (rows.new.items ≡ rows_linked rows.old.items s.now (side_at sides q)) }
    ensures apart { let sides = sides_of tris.now befores.now in result ≡ false
        → ((q : ℕ) → other ≡ Some q → ¬ AreShared s.now (side_at sides q)) × (rows.new.items ≡ rows.old.items) }
{
    match other {
        Some(q) => link(rows, s, &side_at(tris, befores, q)),
        None => false,
    }
}

// Where two triangles have a side between the same corners, each is put into the row of the other. It answers whether it is so.
fn link(rows: &mut Vec<[Option<u32>; 3]>, s: &Side, t: &Side) -> bool
    requires s { (s.now.tri < length rows.old.items) × (s.now.number < 3) }
    requires t { (t.now.tri < length rows.old.items) × (t.now.number < 3) }
    ensures linked { IsTrue result → AreShared s.now t.now × (rows.new.items ≡ rows_linked rows.old.items s.now t.now) }
    ensures apart { result ≡ false → (¬ AreShared s.now t.now) × (rows.new.items ≡ rows.old.items) }
{
    if s.low == t.low && s.high == t.high && s.tri != t.tri {
        rows[s.tri as usize][s.number as usize] = Some(t.tri);
        rows[t.tri as usize][t.number as usize] = Some(s.tri);
        return true;
    }
    false
}
