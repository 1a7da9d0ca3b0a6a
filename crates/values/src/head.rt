// A year's head by value.

// N, day name and mansion.
#[derive(Clone, Copy)]
pub struct Head {
    pub n: i64,
    pub day_name: u64,
    pub mansion: u64,
}
