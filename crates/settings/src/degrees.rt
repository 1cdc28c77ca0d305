// The degrees of a box, one for each support variable.
ghost use Rattle.std.specs.Prelude.{◌≡◌, ℕ, ◌≤◌, List, min, length, take, replicate};

use std::marker::Model;

// At most twenty degrees, the first ones of twenty places. There is no heap: the places are an array.
#[derive(Drop)]
pub struct Degrees {
    places: [u8; 20],
    count: usize,
}

// Clauses see the list of the degrees.
impl Model for Degrees {
    ghost Value = { List ℕ };

    ghost view = { λ d. take d.count d.places };

    ghost invariant = { λ d. d.count ≤ 20 };
}

impl Degrees {
    // The same degree for as many variables, for twenty where there are more.
    pub fn of_all(degree: u8, variables: usize) -> Self
        ensures { result ≡ replicate (min variables 20) degree }
    {
        Degrees {
            places: [degree; 20],
            count: variables.min(20),
        }
    }

    // They in a row.
    pub fn as_slice(&self) -> &[u8]
        ensures { result.now ≡ self.now }
    {
        &self.places[..self.count]
    }
}
