//! The machine that made programs run on: its instructions, its images and its steps, as a table
//! after the Intel 64 manual, volume 2.
#![tactic(auto)]

mod access;
mod arith;
mod control;
mod cpu;
mod effects;
mod fetching;
mod form;
mod image;
mod instr;
mod kernel_calls;
mod machine;
mod memory;
mod reading;
mod reg;
mod registers;
mod transfers;

pub use cpu::{Cpu, Flags, Stepped};
pub use form::form_of;
pub use image::{Code, Image, Segment, Sizes};
pub use instr::{ArithOp, Cond, Instr, ShiftOp};
pub use machine::Machine;
pub use reading::decode;
pub use reg::Reg;
