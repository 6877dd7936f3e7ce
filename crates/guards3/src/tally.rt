// How many vertices the classes have.
ghost use Rattle.std.specs.Prelude.{◌≡◌, ◌⊎◌, ◌+◌, ◌<◌, ◌^◌, ◌++◌, ◌∷◌, [], ℕ, List, length};
ghost use Rattle.guards3.specs.Tally.{IsFewest, IsLess, IsTally, IsTallyOf};

use crate::members::class_at;
use ring_check::Ring;

// How many vertices a class has, and the least of their numbers.
#[derive(Clone, Copy)]
pub(crate) struct Tally {
    pub class: u8,
    pub count: u32,
    pub least: u32,
}

impl Tally {
    // That of the class with the fewest vertices, of equal ones that with the least number.
    pub(crate) fn fewest(ring: &Ring, classes: &[u8]) -> Tally
        requires { length classes.now ≡ length ring.now.corners }
        ensures { IsFewest ring.now classes.now result }
    {
        let (first, second, third) = Tally::of_three(ring, classes);
        first.or_less(second).or_less(third)
    }

    // Those of the classes 0, 1 and 2.
    fn of_three(ring: &Ring, classes: &[u8]) -> (Tally, Tally, Tally)
        requires { length classes.now ≡ length ring.now.corners }
        ensures classes { (result.0.class ≡ 0) × (result.1.class ≡ 1) × (result.2.class ≡ 2) }
        ensures first { IsTally ring.now classes.now result.0 }
        ensures second { IsTally ring.now classes.now result.1 }
        ensures third { IsTally ring.now classes.now result.2 }
    {
        let mut first = Tally::none(0);
        let mut second = Tally::none(1);
        let mut third = Tally::none(2);
        for number in 0..ring.len() {
            let class = class_at(ring, classes, number);
            if class == 0 {
                first = first.with(number);
            } else if class == 1 {
                second = second.with(number);
            } else if class == 2 {
                third = third.with(number);
            }
        }
        (first, second, third)
    }

    // That of a class without vertices.
    fn none(class: u8) -> Tally
        ensures { result ≡ record { class = class; count = 0; least = 0 } }
    {
        Tally {
            class,
            count: 0,
            least: 0,
        }
    }

    // With one vertex more, which has a greater number.
    fn with(self, number: u32) -> Tally
        requires { self.count + 1 < 2 ^ 32 }
        ensures class { result.class ≡ self.class }
        ensures more { (numbers : List ℕ) → IsTallyOf numbers self → IsTallyOf (numbers ++ number ∷ []) result }
    {
        Tally {
            class: self.class,
            count: self.count + 1,
            least: if self.count == 0 { number } else { self.least },
        }
    }

    // This one, or another where that is less.
    fn or_less(self, other: Tally) -> Tally
        ensures one { (result ≡ self) ⊎ (result ≡ other) }
        ensures not_self { IsLess self result → ⊥ }
        ensures not_other { IsLess other result → ⊥ }
    {
        if other.count < self.count || other.count == self.count && other.least < self.least {
            other
        } else {
            self
        }
    }
}
