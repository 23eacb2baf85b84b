// The route lines of a listing, put on a page.
#![tactic(auto)]

ghost use Rattle.listing_numbers.specs.listing.Listing.{stops as Listing·stops, route_line};
ghost use Rattle.listing_numbers.specs.Put.{HasRoom, Puts};

// Of the crates below, passed on to those above.
pub use listing_numbers::{Demand, Page, Problem, Vehicle, each, load, route_cost_route_distance};

// Each stop behind a space.
pub fn put_stops(page: &mut Page<'_>, stops: &[u16])
    requires { HasRoom page.old (Listing·stops stops.now) }
    ensures { Puts page.old (Listing·stops stops.now) page.new }
{
    for c in stops {
        page.put_field(b" ", *c as u64);
    }
}

// A route's line.
pub fn put_route_line(page: &mut Page<'_>, number: u64, load: i32, distance: u64, stops: &[u16])
    requires { HasRoom page.old (route_line number load distance stops.now) }
    ensures { Puts page.old (route_line number load distance stops.now) page.new }
{
    page.put_decimal(number);
    page.put_bytes(b" ");
    page.put_signed(load);
    page.put_field(b" ", distance);
    put_stops(page, stops);
    page.put_bytes(b"\n");
}
