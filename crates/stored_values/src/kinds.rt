// The kinds of stored calls, by their numbers.
ghost use Rattle.std.specs.Prelude.{◌≡◌, ◌<◌, slice_get, Some};
ghost use Rattle.stored_values.specs.Kinds.{kinds, number_of, name_of};

use std::fmt;

// What a stored call asks, in the order of `KINDS` of the comparison.
#[derive(Clone, Copy, Debug, PartialEq, Eq)]
pub enum Kind {
    Minimise = 0,
    Eliminate = 1,
    RouteFeasible = 2,
    RouteEval = 3,
    EffectiveCost = 4,
    Schedule = 5,
    RouteDistance = 6,
    LatenessBound = 7,
    GainFloor = 8,
    TimeWindowNew = 9,
}

impl Kind {
    // Each kind, at the place of its number.
    pub const ALL: [Kind; 10] = [
        Kind::Minimise,
        Kind::Eliminate,
        Kind::RouteFeasible,
        Kind::RouteEval,
        Kind::EffectiveCost,
        Kind::Schedule,
        Kind::RouteDistance,
        Kind::LatenessBound,
        Kind::GainFloor,
        Kind::TimeWindowNew,
    ];

    // The kind with a number, or nothing where no kind has it.
    pub fn of(number: u64) -> Option<Kind>
        ensures { result ≡ slice_get kinds number }
    {
        Kind::ALL.get(number as usize).copied()
    }

    // The number of a kind.
    pub fn number(self) -> usize
        ensures value { result ≡ number_of self }
        ensures below { result < 10 }
    {
        self as usize
    }
}

// The name of what is asked.
impl fmt::Display for Kind {
    ghost output = { λ kind. Some (name_of kind) };

    fn fmt<W: fmt::Write>(&self, f: &mut fmt::Formatter<W>) -> fmt::Result {
        f.write_str(match self {
            Kind::Minimise => "minimise",
            Kind::Eliminate => "eliminate",
            Kind::RouteFeasible => "route_feasible",
            Kind::RouteEval => "route_eval",
            Kind::EffectiveCost => "effective_cost",
            Kind::Schedule => "schedule",
            Kind::RouteDistance => "route_distance",
            Kind::LatenessBound => "lateness_bound",
            Kind::GainFloor => "gain_floor",
            Kind::TimeWindowNew => "time_window_new",
        })
    }
}
