// A problem as it is lent, before any check: what every call is given besides its own plan or route.
ghost use Rattle.std.specs.Prelude.{◌≡◌};
ghost use Rattle.models.specs.Problem.{Fit};

use crate::customers::Customers;
use crate::matrix::DistanceMatrix;
use crate::network::Network;
use crate::vehicle::Vehicle;

#[derive(Clone, Copy)]
pub struct Problem<'a> {
    pub demand: &'a [i32],
    pub places: &'a Customers<'a>,
    pub roads: &'a DistanceMatrix<'a>,
    pub vehicle: Vehicle,
}

impl<'a> Problem<'a> {
    // The network of a problem whose slices fit.
    pub fn network(&self) -> Network<'a>
        requires { Fit self.now.places.now self.now.roads.now }
        ensures { (result.places ≡ self.now.places.now) × (result.roads ≡ self.now.roads.now) }
    {
        Network {
            places: self.places.again(),
            roads: self.roads.again(),
        }
    }
}
