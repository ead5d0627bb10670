//! Each call on the states of a row of operators: what is live before is compared with what is
//! live after. What is expected was written by hand.
mod anew;
mod back;
mod laws;
mod live;
mod names;
mod row;
mod store;
