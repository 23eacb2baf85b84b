// The routes by length, stable, one pick after the other: no cells are needed for the order.
#![tactic(auto)]

ghost use Rattle.std.specs.Prelude.{◌≡◌};
ghost use Rattle.route_order.specs.Order.{next_pick};

use plan::routes::Routes;

// Of the crates below, passed on to those above.
pub use plan::{copy_cells, copy_part, cut, each, insert_at, offset, routes};

// A route and its length. A shorter one comes first, and of equals the one with the smaller index.
#[derive(Clone, Copy, PartialEq, Eq, PartialOrd, Ord)]
pub struct Pick {
    pub length: u16,
    pub route: usize,
}

// The route that comes next after the last pick, if there is one.
pub fn next_pick(lengths: &[u16], last: Option<Pick>) -> Option<Pick>
    ensures { result ≡ next_pick lengths.now last }
{
    lengths
        .iter()
        .enumerate()
        .map(|(route, length)| Pick {
            length: *length,
            route,
        })
        .filter(|pick| last < Some(*pick))
        .min()
}

// The same of the routes of a plan. A field lent from behind `&mut Routes` would lose what the routes hold, so the whole is lent.
pub fn pick_after(routes: &Routes, last: Option<Pick>) -> Option<Pick>
    ensures { result ≡ next_pick routes.now.lengths.now last }
{
    next_pick(routes.lengths, last)
}
