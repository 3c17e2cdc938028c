// The codes of the commands that are written or acted on (001, Table 2). Numbers, not an enum: the record's CMD register holds any
// word, and its image shows it.
pub const WCFG: u32 = 1;

pub const MFWR: u32 = 2;

pub const LFRM: u32 = 3;

pub const START: u32 = 5;

pub const RCRC: u32 = 7;

pub const AGHIGH: u32 = 8;

pub const DESYNC: u32 = 13;

// The codes end here.
pub const LAST: u32 = DESYNC;
