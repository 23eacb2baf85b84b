// The pool that an attempt at a route starts with (local_search/route_minimization.rs, `empty_into`): the route's stops, the last of them on top.
#![tactic(auto)]

ghost use Rattle.std.specs.Prelude.{◌≡◌, reverse, ◌<◌, ◌≤◌, length};
ghost use Rattle.ejection_made.specs.plan.Plan.{route, total};
ghost use Rattle.ejection_made.specs.plan.Given.{routes_left};
ghost use Rattle.ejection_made.specs.Made.{pooled};

use ejection_made::ArrayVec;
use ejection_made::routes::EachRoute;

// The stops of route r wait, the last of them on top.
#[tactic(auto, using(crate::proofs::StartLaws::route_laws))]
pub fn to_pool<const N: usize>(routes: EachRoute, r: usize) -> ArrayVec<u16, N>
    requires there { r < length routes.lengths.now }
    requires has_room { total routes.lengths.now ≤ N }
    ensures { pooled result ≡ reverse (route r (routes_left routes.entry)) }
{
    let route = routes.route(r);
    let mut pool = ArrayVec::new();
    for c in route {
        pool.push(*c);
    }
    pool
}
