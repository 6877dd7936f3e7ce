// The left and the right side of a node.
ghost use Rattle.std.specs.Prelude.{◌≡◌, ◌↔◌, IsTrue};
ghost use Rattle.shared_seq.specs.Tree.{other_tree_side};

// Which of two trees stands first.
#[derive(Clone, Copy)]
pub(crate) enum Side {
    Left,
    Right,
}

impl Side {
    pub(crate) fn opposite(self) -> Side
        ensures { result ≡ other_tree_side self }
    {
        match self {
            Side::Left => Side::Right,
            Side::Right => Side::Left,
        }
    }

    // Whether it is this one.
    pub(crate) fn is(self, other: Side) -> bool
        ensures { IsTrue result ↔ (self ≡ other) }
    {
        match (self, other) {
            (Side::Left, Side::Left) | (Side::Right, Side::Right) => true,
            _ => false,
        }
    }
}
