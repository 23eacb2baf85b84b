// The places as they are lent: a slice for each field of a place, with a cell for each place (models/customer.rs, `&[Customer]`).
ghost use Rattle.std.specs.Prelude.{◌≡◌, length};
ghost use Rattle.models.specs.Customer.{Customers};

use std::marker::Model;

// What the evaluation of a route reads of the places. In a contract it is the record `Customers` of five lists.
#[derive(Drop)]
pub struct Customers<'a> {
    pub service: &'a [f64],
    pub ready: &'a [f64],
    pub due: &'a [f64],
    pub penalty: &'a [f64],
    pub flags: &'a [u8],
}

impl<'a> Model for Customers<'a> {
    ghost Value = { Customers };

    ghost view = { λ cs. record {
      service = cs.service.now;
      ready = cs.ready.now;
      due = cs.due.now;
      penalty = cs.penalty.now;
      flags = cs.flags.now;
    } };
}

impl<'a> Customers<'a> {
    // The flags of each place.
    pub fn flags(&self) -> &'a [u8]
        ensures { result.now ≡ self.now.flags }
    {
        self.flags
    }

    // How many places there are: each has its flags.
    pub fn len(&self) -> usize
        ensures { result ≡ length self.now.flags }
    {
        self.flags.len()
    }

    // The same slices, lent once more.
    pub fn again(&self) -> Customers<'a>
        ensures { result ≡ self.now }
    {
        Customers {
            service: self.service,
            ready: self.ready,
            due: self.due,
            penalty: self.penalty,
            flags: self.flags,
        }
    }
}
