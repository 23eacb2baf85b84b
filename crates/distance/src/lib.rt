// The distance matrix: n by n cells, row by row, and travel times likewise or none (distance/matrix.rs).
#![tactic(auto)]

ghost use Rattle.std.specs.Prelude.{◌≡◌, ◌<◌, ◌≤◌, ◌*◌, length};
ghost use Rattle.place_record.specs.models.Problem.{Square};
ghost use Rattle.distance.specs.Matrix.{cell, get, travel_time, largest};
ghost use Rattle.distance.specs.Seen.{Seen, NextSeen};

// Of the crates below, passed on to those above.
pub use place_record::{
    Customer, Customers, DistanceMatrix, Network, Problem, RouteLimits, TimeWindow, Vehicle,
    VehicleBreak, abs, customer_at, infinity, is_finite, is_penalised, is_windowed, max, min,
    penalty_at, total_less, window_at,
};

// The cell from one place to another, of `n` by `n`. Every place on a checked problem lies in the matrix, so no cell is ever out of it.
fn cell(cells: &[f64], n: usize, from: usize, to: usize) -> f64
    requires { (n ≤ 256) × (from < n) × (to < n) × (length cells.now ≡ n * n) }
    ensures { result ≡ cell cells.now n from to }
{
    cells[from * n + to]
}

// The distance from one place to another.
pub fn get(roads: &DistanceMatrix, from: usize, to: usize) -> f64
    requires { (roads.now.size ≤ 256) × (from < roads.now.size) × (to < roads.now.size)
        × (length roads.now.distances ≡ roads.now.size * roads.now.size) }
    ensures { result ≡ get roads.now from to }
{
    cell(roads.distances, roads.size, from, to)
}

// The travel time from one place to another: the distance, unless there are times.
pub fn travel_time(roads: &DistanceMatrix, from: usize, to: usize) -> f64
    requires square { Square roads.now }
    requires from_lt_n { (from < roads.now.size) × (to < roads.now.size) }
    ensures { result ≡ travel_time roads.now from to }
{
    if roads.times.is_empty() {
        get(roads, from, to)
    } else {
        cell(roads.times, roads.size, from, to)
    }
}

// Where the next number stands that is as large as `most`, the largest so far, if there is one. No test waits for the one before.
fn next_as_large(xs: &[f64], most: f64, start: usize) -> Option<usize>
    requires { Seen xs.now most start }
    ensures { NextSeen xs.now most start result }
{
    for i in start..xs.len() {
        if xs[i] >= most {
            return Some(i);
        }
    }
    None
}

// The largest of some numbers, 0 where none is above it.
pub fn largest(xs: &[f64]) -> f64
    ensures { result ≡ largest xs.now }
{
    let mut most = 0.0;
    let mut i = 0;
    while let Some(at) = next_as_large(xs, most, i) {
        most = xs[at];
        i = at + 1;
    }
    most
}

// The largest distance: the size that distances are in, by which a gain is told from rounding.
pub fn scale(distances: &[f64]) -> f64
    ensures { result ≡ largest distances.now }
{
    largest(distances)
}
