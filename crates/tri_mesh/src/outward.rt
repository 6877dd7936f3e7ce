/// A triangle in an order that goes outward from a home, and how it is reached.
#[derive(Clone, Copy)]
pub struct Outward {
    /// The triangle at this place.
    pub tri: u32,
    /// The earlier place of the triangle from which it is reached. At the home it says nothing.
    pub toward: u32,
    /// The number of its side to that triangle. At the home it says nothing.
    pub side: u32,
}

/// The order of a mesh's triangles outward from triangle 0, and the place of each triangle in it.
#[derive(Clone, Copy)]
pub struct Rooted<'a> {
    pub order: &'a [Outward],
    pub places: &'a [u32],
}
