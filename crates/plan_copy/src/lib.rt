// The plan kept in work cells, to be put back where an attempt without a route fails.
#![tactic(auto)]

ghost use Rattle.std.specs.Prelude.{◌≡◌, ◌+◌, ◌≤◌, length, take, drop};
ghost use Rattle.route_removal.specs.plan.Plan.{saved};

use route_removal::copy_cells;
use route_removal::routes::Routes;

// Of the crates below, passed on to those above.
pub use route_removal::drop_empty;

// Both slices are kept in the first work cells.
pub fn save(work: &mut [u16], lengths: &[u16], stops: &[u16])
    requires { length lengths.now + length stops.now ≤ length work.old }
    ensures { work.new ≡ saved lengths.now stops.now work.old }
{
    let (first, rest) = work.split_at_mut(lengths.len());
    copy_cells(first, lengths);
    copy_cells(&mut rest[..stops.len()], stops);
}

// The same of a plan. A field lent from behind `&mut Routes` would lose what the routes hold, so the whole is lent.
pub fn keep(work: &mut [u16], routes: &Routes)
    requires { length routes.now.lengths.now + length routes.now.stops.now ≤ length work.old }
    ensures { work.new ≡ saved routes.now.lengths.now routes.now.stops.now work.old }
{
    save(work, routes.lengths, routes.stops);
}

// Both slices become what is kept in the first work cells.
pub fn restore(lengths: &mut [u16], stops: &mut [u16], work: &[u16])
    requires { length lengths.old + length stops.old ≤ length work.now }
    ensures lengths { lengths.new ≡ take (length lengths.old) work.now }
    ensures stops { stops.new ≡ take (length stops.old) (drop (length lengths.old) work.now) }
{
    let (first, rest) = work.split_at(lengths.len());
    copy_cells(lengths, first);
    copy_cells(stops, &rest[..stops.len()]);
}
