// The demands of the places, as row 4 of the refusal table leaves them: none is large.
ghost use Rattle.std.specs.Prelude.{length};
ghost use Rattle.break_schedule.specs.models.Problem.{Demands};

#[derive(Clone, Copy)]
pub struct Demand<'a> {
    pub cells: &'a [i32],
    pub ghost small: { Demands (length cells.now) cells.now },
}
