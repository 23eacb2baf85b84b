// The routes of a plan, one after the other.
ghost use Rattle.std.specs.Prelude.{◌≡◌, ◌<◌, length};
ghost use Rattle.std.specs.Iterator.{YieldsFirstRef, item_count};
ghost use Rattle.plan.specs.Plan.{Lent, route};

use crate::routes::offset;

// The lengths of the routes that are left, and their stops.
#[derive(Clone, Copy)]
pub struct EachRoute<'a> {
    pub lengths: &'a [u16],
    pub stops: &'a [u16],
    pub ghost lent: { Lent lengths.now stops.now },
}

impl<'a> EachRoute<'a> {
    ghost use Rattle.plan.specs.Given.{routes_left};

    // The stops of route k of them.
    pub fn route(self, k: usize) -> &'a [u16]
        requires { k < length self.lengths.now }
        ensures { result.now ≡ route k (routes_left self.entry) }
    {
        let at = offset(self.lengths, k);
        let length = self.lengths[k] as usize;
        &self.stops[at..at + length]
    }
}

impl<'a> Iterator for EachRoute<'a> {
    ghost use Rattle.plan.specs.Given.{routes_left};

    type Item = &'a [u16];

    ghost next_gives = { YieldsFirstRef routes_left };

    ghost remaining = { item_count routes_left };

    // The route that comes next; none after the last one.
    #[tactic(auto, using(crate::proofs::EachLaws::each_laws))]
    fn next(&mut self) -> Option<&'a [u16]> {
        let (length, lengths) = self.lengths.split_first()?;
        let (route, stops) = self.stops.split_at(*length as usize);
        *self = EachRoute { lengths, stops };
        Some(route)
    }
}
