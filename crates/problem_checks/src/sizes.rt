// Row 1: the number of places, and the lengths of the slices.
ghost use Rattle.std.specs.Prelude.{◌≡◌, ◌≤◌};
ghost use Rattle.models.specs.Lent.{of_problem};
ghost use Rattle.models.specs.Valid.{count_passes, cells_pass, matrix_passes, sizes_pass};

use models::customers::Customers;
use models::matrix::DistanceMatrix;
use models::problem::Problem;

// Whether there are 1 to 256 places.
fn count_passes(n: usize) -> bool
    ensures { result ≡ count_passes n }
{
    (1..=256).contains(&n)
}

// Whether each slice of the places has n cells.
fn cells_pass(n: usize, places: &Customers) -> bool
    ensures { result ≡ cells_pass places.now n }
{
    places.service.len() == n
        && places.ready.len() == n
        && places.due.len() == n
        && places.penalty.len() == n
        && places.flags.len() == n
}

// Whether there are n × n distances, and as many times or none.
fn matrix_passes(roads: &DistanceMatrix) -> bool
    requires { roads.now.size ≤ 256 }
    ensures { result ≡ matrix_passes roads.now }
{
    let cells = roads.size * roads.size;
    roads.distances.len() == cells && (roads.times.is_empty() || roads.times.len() == cells)
}

// Whether row 1 lets the problem pass.
#[tactic(auto, unfolding(models::specs::Valid::sizes_pass))]
pub fn sizes_pass(problem: &Problem) -> bool
    ensures { result ≡ sizes_pass (of_problem problem.now) }
{
    let roads = problem.roads;
    count_passes(roads.size)
        && problem.demand.len() == roads.size
        && cells_pass(roads.size, problem.places)
        && matrix_passes(roads)
}
