// The leaf crate: bytes and lengths of an area, strides, slots, rows, the block step.
// Every public function is total: what lies past an end reads as the definition in specs/ says.
#![tactic(auto)]

pub mod delta_loc;
pub mod file;
pub mod loc_simd;
pub mod refusal;
pub mod slices;

// Paired: strides and span counts (`create_loc`). Single: strides alone (`delta_loc`).
#[derive(Clone, Copy)]
pub enum Kind {
    Paired,
    Single,
}

// What a slot or a row says of a record; the span count is 0 where single.
#[derive(Clone, Copy)]
pub struct Value {
    pub strides: u32,
    pub spans: u32,
}
