// The numbers of elements and the places of fields in the table, by name. Made by tools/field-table.

// How many fields the table has.
pub const FIELDS: usize = 52;

// The elements; 0 is any other.
pub const MP: u8 = 1;

pub const P: u8 = 2;

pub const A: u8 = 3;

pub const O: u8 = 4;

pub const S: u8 = 5;

pub const M: u8 = 6;

pub const W: u8 = 7;

pub const R: u8 = 8;

pub const X: u8 = 9;

// The fields.
pub const MP_V: usize = 0;

pub const MP_P: usize = 1;

pub const MP_U: usize = 2;

pub const MP_L: usize = 3;

pub const MP_A: usize = 4;

pub const MP_Z: usize = 5;

pub const P_G: usize = 6;

pub const P_F: usize = 7;

pub const P_B: usize = 8;

pub const P_S: usize = 9;

pub const P_EGK: usize = 10;

pub const P_T: usize = 11;

pub const P_V: usize = 12;

pub const P_Z: usize = 13;

pub const A_LANR: usize = 14;

pub const A_IDF: usize = 15;

pub const A_KIK: usize = 16;

pub const A_N: usize = 17;

pub const A_S: usize = 18;

pub const A_Z: usize = 19;

pub const A_C: usize = 20;

pub const A_P: usize = 21;

pub const A_E: usize = 22;

pub const A_T: usize = 23;

pub const O_AI: usize = 24;

pub const O_W: usize = 25;

pub const O_H: usize = 26;

pub const O_C: usize = 27;

pub const O_P: usize = 28;

pub const O_B: usize = 29;

pub const O_X: usize = 30;

pub const S_C: usize = 31;

pub const S_T: usize = 32;

pub const M_P: usize = 33;

pub const M_A: usize = 34;

pub const M_F: usize = 35;

pub const M_FD: usize = 36;

pub const M_M: usize = 37;

pub const M_D: usize = 38;

pub const M_V: usize = 39;

pub const M_H: usize = 40;

pub const M_T: usize = 41;

pub const M_DU: usize = 42;

pub const M_DUD: usize = 43;

pub const M_I: usize = 44;

pub const M_R: usize = 45;

pub const M_X: usize = 46;

pub const W_W: usize = 47;

pub const W_S: usize = 48;

pub const R_T: usize = 49;

pub const R_X: usize = 50;

pub const X_T: usize = 51;
