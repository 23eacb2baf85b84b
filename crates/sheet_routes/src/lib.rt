// Reads the routes of a sheet into lent slices.
#![tactic(auto)]

pub mod routes;
