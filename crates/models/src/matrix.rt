// The distance matrix as it is lent: distances, and travel times or none, `size` by `size`, row by row (distance/matrix.rs, `DistanceMatrix`).
ghost use Rattle.std.specs.Prelude.{◌≡◌};
ghost use Rattle.models.specs.Problem.{DistanceMatrix};

use std::marker::Model;

// In a contract it is the record `DistanceMatrix` of a number and two lists.
#[derive(Drop)]
pub struct DistanceMatrix<'a> {
    pub size: usize,
    pub distances: &'a [f64],
    pub times: &'a [f64],
}

impl<'a> Model for DistanceMatrix<'a> {
    ghost Value = { DistanceMatrix };

    ghost view = { λ m. record {
      size = m.size;
      distances = m.distances.now;
      times = m.times.now;
    } };
}

impl<'a> DistanceMatrix<'a> {
    // How many places there are.
    pub fn size(&self) -> usize
        ensures { result ≡ self.now.size }
    {
        self.size
    }

    // The distances, row by row.
    pub fn distances(&self) -> &'a [f64]
        ensures { result.now ≡ self.now.distances }
    {
        self.distances
    }

    // The same slices, lent once more.
    pub fn again(&self) -> DistanceMatrix<'a>
        ensures { result ≡ self.now }
    {
        DistanceMatrix {
            size: self.size,
            distances: self.distances,
            times: self.times,
        }
    }
}
