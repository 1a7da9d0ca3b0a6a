// Document 01's constants as the code reads them: angles in units, days in thousand-millionths.
pub(crate) const SECOND: u64 = 60_000_000;

pub(crate) const MINUTE: u64 = 60 * SECOND;

pub(crate) const CIRCLE: u64 = 1_296_000 * SECOND;

pub(crate) const HALF: u64 = CIRCLE / 2;

pub(crate) const QUARTER: u64 = CIRCLE / 4;

pub(crate) const DAY: u64 = 1_000_000_000;

pub(crate) const YEAR: u64 = 365 * DAY + 242_187_500;

pub(crate) const DAY_EPOCH: u64 = 7 * DAY + 656_374_926;

pub(crate) const DAILY: u64 = 212_899_831_014;

pub(crate) const PERIGEE_YEARLY: u64 = 3_669_999_600;

pub(crate) const PERIGEE_DAILY: u64 = 10_048_140;

pub(crate) const PERIGEE_EPOCH: u64 = 1_548_670_000_000;

pub(crate) const RADIUS: u64 = 10_000_000;

pub(crate) const EPICYCLES: u64 = 268_812 - 89_604;
