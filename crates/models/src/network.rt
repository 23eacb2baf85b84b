// The places and the roads between them, which fit each other: what a route is judged by.
ghost use Rattle.models.specs.Problem.{Fit};

use crate::customers::Customers;
use crate::matrix::DistanceMatrix;

#[derive(Drop)]
pub struct Network<'a> {
    pub places: Customers<'a>,
    pub roads: DistanceMatrix<'a>,
    pub ghost fit: { Fit places roads },
}
