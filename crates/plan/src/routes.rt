// The routes of a plan, and a stop put in or taken out.
ghost use Rattle.std.specs.Prelude.{◌≡◌, ◌+◌, ◌-◌, ◌<◌, ◌≤◌, ◌^◌, length, slice_index};
ghost use Rattle.plan.specs.Plan.{Lent, HasPosition, HasStop, route, total, offset, put_in, take_out};

pub use crate::each::EachRoute;

// The lengths of the routes and their stops, as they are lent.
#[derive(Drop)]
pub struct Routes<'a> {
    pub lengths: &'a mut [u16],
    pub stops: &'a mut [u16],
    pub ghost lent: { Lent lengths.now stops.now },
}

// A position of a route: before its stop at pos, or at its end.
#[derive(Clone, Copy)]
pub struct Position {
    pub route: usize,
    pub pos: usize,
}

// How many stops there are by their lengths.
pub fn total(lengths: &[u16]) -> usize
    requires { total lengths.now < 2 ^ 64 }
    ensures { result ≡ total lengths.now }
{
    lengths.iter().map(|length| *length as usize).sum()
}

// Where route k begins among the stops.
pub fn offset(lengths: &[u16], k: usize) -> usize
    requires there { k ≤ length lengths.now }
    requires few { total lengths.now < 65536 }
    ensures { result ≡ offset lengths.now k }
{
    total(&lengths[..k])
}

impl<'a> Routes<'a> {
    ghost use Rattle.plan.specs.Given.{plan_of, routes_left, Becomes};

    // How many stops there are.
    pub fn used(&self) -> usize
        ensures { result ≡ total self.now.lengths.now }
    {
        total(self.lengths)
    }

    // Where route k begins among the stops.
    pub fn begins(&self, k: usize) -> usize
        requires { k ≤ length self.now.lengths.now }
        ensures { result ≡ offset self.now.lengths.now k }
    {
        offset(self.lengths, k)
    }

    // The routes, one after the other.
    pub fn each(&self) -> EachRoute
        ensures { routes_left result ≡ plan_of self.now }
    {
        EachRoute {
            lengths: self.lengths,
            stops: self.stops,
        }
    }

    // The stops of route k.
    pub fn route(&self, k: usize) -> &[u16]
        requires { k < length self.now.lengths.now }
        ensures { result.now ≡ route k (plan_of self.now) }
    {
        self.each().route(k)
    }

    // The stop c goes into route k at pos.
    pub fn put_in(&mut self, k: usize, pos: usize, c: u16)
        requires has_position { HasPosition (plan_of self.old) k pos }
        requires has_room { total self.old.lengths.now < length self.old.stops.now }
        ensures { Becomes self.old (put_in k pos c (plan_of self.old)) (total self.old.lengths.now + 1) self.new }
    {
        let used = self.used();
        let p = self.begins(k) + pos;
        cell_exchange::insert_at(&mut self.stops[..used + 1], p, c);
        self.lengths[k] += 1;
    }

    // The stop at pos of route k is taken out and returned.
    pub fn take_out(&mut self, k: usize, pos: usize) -> u16
        requires { HasStop (plan_of self.old) k pos }
        ensures plan { Becomes self.old (take_out k pos (plan_of self.old)) (total self.old.lengths.now - 1) self.new }
        ensures stop { result ≡ slice_index (route k (plan_of self.old)) pos }
    {
        let used = self.used();
        let p = self.begins(k) + pos;
        let c = self.stops[p];
        cell_exchange::cut(&mut self.stops[..used], p, 1);
        self.lengths[k] -= 1;
        c
    }
}
