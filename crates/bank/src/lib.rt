// Banks of devices: the interface, RAM, ROM, registers and pairs, and moving bytes in and out.
#![tactic(auto)]

pub mod bank;
mod chip;
mod front;
pub mod joint;
mod lone;
pub mod pair;
pub mod ram;
mod register;
pub mod registers;
pub mod rom;
pub mod transfer;
