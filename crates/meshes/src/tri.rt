/// A triangle by the numbers of its corners, counterclockwise. Side 0 goes from `a` to `b`, side 1 from `b` to `c`, side 2
/// from `c` to `a`.
#[derive(Clone, Copy, Debug, PartialEq, Eq)]
pub struct Tri {
    pub a: u32,
    pub b: u32,
    pub c: u32,
}
