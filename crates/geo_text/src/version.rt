ghost use Rattle.std.specs.Prelude.{◌≡◌};
ghost use Rattle.geo_text.specs.Version.{version_of};

/// Of which version a script is. Version 2 has wider limits, and tells of a path each vertex that it touches.
#[derive(Clone, Copy, Debug, PartialEq, Eq)]
pub enum Version {
    One,
    Two,
}

impl Version {
    /// Version 2, or version 1.
    pub fn of(two: bool) -> Version
        ensures { result ≡ version_of two }
    {
        if two { Version::Two } else { Version::One }
    }
}
