// The executable picture: the tables of tasks, and the events on them.
#![tactic(auto)]

mod blocks;
mod calls;
mod changes;
mod condition;
mod ids;
mod limits;
mod lives;
mod open_set;
mod picture;
mod questions;
mod readings;
mod record;
mod rendezvous;
mod search;
mod settle;
mod stack;
mod tables;
mod tell;

pub use picture::Picture;
