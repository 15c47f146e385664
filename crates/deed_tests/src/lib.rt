//! Tests of the public calls below the table, from names and rounds to deeds, calls, views and windows, and of the lines of mjai:
//! a file for each crate, and tables of cases in it. There is no code here but that of the tests.
#![tactic(auto)]

#[cfg(test)]
mod asking;
#[cfg(test)]
mod calls;
#[cfg(test)]
mod deeds;
#[cfg(test)]
mod lines;
#[cfg(test)]
mod ports;
#[cfg(test)]
mod rounds;
#[cfg(test)]
mod seating;
#[cfg(test)]
mod toy;
#[cfg(test)]
mod views;
#[cfg(test)]
mod wall;
#[cfg(test)]
mod window;
