// An instance: a problem that rows 1, 2 and 4 of the refusal table have let pass, as the searches are lent it.
ghost use Rattle.break_schedule.specs.models.Problem.{Admitted, problem_of};

use crate::demand::Demand;
use crate::fleet::Fleet;

#[derive(Drop)]
pub struct Instance<'a> {
    pub fleet: Fleet<'a>,
    pub demand: Demand<'a>,
    pub ghost admitted: { Admitted (problem_of demand.cells.now fleet.net.places fleet.net.roads fleet.vehicle) },
}
