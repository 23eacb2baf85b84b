// What is read of a sheet, beside what its slices hold.
use sheet_problem::Head;
use sheet_routes::routes::PlanSize;
use sheet_run::RunLine;

// What is asked of the problem: how many draws there are, how many routes and stops, M and K.
#[derive(Clone, Copy)]
pub struct Request {
    pub draws: usize,
    pub plan: PlanSize,
    pub run: RunLine,
}

// The head of the problem, and what is asked of it.
#[derive(Clone, Copy)]
pub struct Sheet {
    pub head: Head,
    pub request: Request,
}
