/// A side between two triangles of a walk, by its corners on the left and on the right of the way from one to the other.
#[derive(Clone, Copy)]
pub struct Diagonal {
    pub left: u32,
    pub right: u32,
}
