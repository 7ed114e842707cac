//! Runs of a machine by a schedule that a seed determines: one place acts at a time, until none
//! can.

mod actors;
mod draw;
mod drive;

pub use drive::drive_many;
