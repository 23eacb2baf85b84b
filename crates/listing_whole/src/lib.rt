// A listing as a whole, written into lent bytes: `put_listing` writes it from position 0 on.
#![tactic(auto)]

ghost use Rattle.std.specs.Prelude.{◌≡◌, ◌*◌, ◌<◌, ◌≤◌, length};
ghost use Rattle.listing_totals.specs.laws.All.{All};
ghost use Rattle.listing_totals.specs.models.Problem.{Stops, Demands};
ghost use Rattle.listing_totals.specs.plan.Given.{routes_left};
ghost use Rattle.listing_totals.specs.listing.Listing.{Prints, listing};
ghost use Rattle.listing_totals.specs.listing.Written.{Room, Written};
ghost use Rattle.listing_totals.specs.models.Lent.{of_problem};

use listing_routes::each::EachRoute;
use listing_routes::put_routes;
use listing_totals::{Counts, Problem, put_first_line, put_last_line};

// Of the crates below, passed on to those above.
pub use listing_routes::each;
pub use listing_totals::{Page, Refusal, put_refusal, put_refused};

// The listing of the routes, from position 0 on.
pub fn put_listing(
    out: &mut [u8],
    routes: EachRoute,
    counts: Counts,
    given: u64,
    problem: &Problem,
) -> usize
    requires room { Room out.old 0 (listing (of_problem problem.now) (routes_left routes) counts given) }
    requires few { problem.now.roads.now.size ≤ 256 }
    requires cells { length problem.now.roads.now.distances ≡ problem.now.roads.now.size * problem.now.roads.now.size }
    requires depot_in { problem.now.vehicle.depot_id < problem.now.roads.now.size }
    requires demands { Demands problem.now.roads.now.size problem.now.demand.now }
    requires stops { All (Stops problem.now.roads.now.size) (routes_left routes) }
    requires prints { All (Prints (of_problem problem.now)) (routes_left routes) }
    ensures { Written out.old 0 (listing (of_problem problem.now) (routes_left routes.entry) counts given) out.new result }
{
    let left = routes.lengths.len() as u64;
    let mut page = Page { out, at: 0 };
    put_first_line(&mut page, left);
    put_routes(&mut page, routes, problem);
    put_last_line(&mut page, counts, given, left);
    page.at
}
