// What each attempt of a search is lent: the instance, and its gain floor, which is worked out once.
ghost use Rattle.std.specs.Prelude.{◌≡◌};
ghost use Rattle.moved_stops.specs.route_cost.Route.{gain_floor};

use moved_stops::Instance;

#[derive(Drop)]
pub struct Elimination<'a> {
    pub instance: &'a Instance<'a>,
    pub floor: f64,
    pub ghost floor_is: { floor ≡ gain_floor instance.now.fleet.net.roads },
}
