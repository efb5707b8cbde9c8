// The Mega-frame Initialization Packet (000, clause 6) and site timing (annex B).
#![tactic(auto)]

mod reading;
mod timing;
mod writing;

pub use reading::{addressing_data, read};
pub use timing::{emission, extra_delay};
pub use writing::write;

// A number of 100 ns steps. The timestamps of T2-MI count in other units: the two never meet in one sum.
#[derive(Clone, Copy, Debug, PartialEq, Eq)]
pub struct Steps(pub u32);

// The fields of a MIP, in the order of table 1b.
#[derive(Clone, Copy, Debug, PartialEq, Eq)]
pub struct Mip {
    pub count: u8,
    pub pointer: u16,
    pub periodic: bool,
    pub future: u16,
    pub stamp: Steps,
    pub delay: Steps,
    pub tps: u32,
}

// What reading a MIP gives: its fields, and how many bytes of addressing data it has, from byte 21 on.
#[derive(Clone, Copy, Debug, PartialEq, Eq)]
pub struct MipRead {
    pub addressing: usize,
    pub mip: Mip,
}
