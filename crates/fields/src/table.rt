// The table of elements and fields as constant columns. Made by tools/field-table.

// Each field's letters as a key: the first byte lowest, with a 1 above the last.
pub const KEYS: [u64; 52] = [
    374, // MP.v
    368, // MP.p
    341, // MP.U
    364, // MP.l
    353, // MP.a
    378, // MP.z
    359, // P.g
    358, // P.f
    354, // P.b
    371, // P.s
    23816037, // P.egk
    372, // P.t
    374, // P.v
    378, // P.z
    6214803820, // A.lanr
    23487593, // A.idf
    23816555, // A.kik
    366, // A.n
    371, // A.s
    378, // A.z
    355, // A.c
    368, // A.p
    357, // A.e
    372, // A.t
    92513, // O.ai
    375, // O.w
    360, // O.h
    355, // O.c
    368, // O.p
    354, // O.b
    376, // O.x
    355, // S.c
    372, // S.t
    368, // M.p
    353, // M.a
    358, // M.f
    91238, // M.fd
    365, // M.m
    356, // M.d
    374, // M.v
    360, // M.h
    372, // M.t
    95588, // M.du
    23360868, // M.dud
    361, // M.i
    370, // M.r
    376, // M.x
    375, // W.w
    371, // W.s
    372, // R.t
    376, // R.x
    372, // X.t
];

// Each field's limits, twelve bits to each: its rule, numbered as `rules::keeps_rule` says, its least and its greatest length, how many line breaks it may have, and 1 if it must be present.
pub const LIMITS: [u64; 52] = [
    281475027054593, // MP.v
    33558530, // MP.p
    281475513712643, // MP.U
    83906564, // MP.l
    16781317, // MP.a
    16781317, // MP.z
    281475731689472, // P.g
    281475731689472, // P.f
    281475110961158, // P.b
    16781319, // P.s
    167813128, // P.egk
    335548416, // P.t
    335548416, // P.v
    335548416, // P.z
    151031810, // A.lanr
    117469186, // A.idf
    151031810, // A.kik
    281475815575552, // A.n
    503320576, // A.s
    83906562, // A.z
    335548416, // A.c
    335548416, // A.p
    671092736, // A.e
    281475295555593, // A.t
    838864896, // O.ai
    83890178, // O.w
    50335746, // O.h
    83890176, // O.c
    16781322, // O.p
    16781322, // O.b
    138730803211, // O.x
    50343938, // S.c
    838864896, // S.t
    134221836, // M.p
    838864896, // M.a
    50343949, // M.f
    117444608, // M.fd
    67112974, // M.m
    67112974, // M.d
    67112974, // M.v
    67112974, // M.h
    335548416, // M.t
    16781327, // M.du
    335552512, // M.dud
    70061658112, // M.i
    69558341632, // M.r
    72074924032, // M.x
    281476318892032, // W.w
    251662336, // W.s
    281547051634688, // R.t
    72074924032, // R.x
    281547051634688, // X.t
];

// The names of elements as keys, by the parent that may hold them.
pub const CHILD_KEYS: [u64; 9] = [
    336, // P in MP
    321, // A in MP
    335, // O in MP
    339, // S in MP
    333, // M in S
    338, // R in S
    344, // X in S
    343, // W in M
    86093, // MP in outside
];

// The number of the element of each of these names.
pub const CHILD_KINDS: [u8; 9] = [
    2, // P in MP
    3, // A in MP
    4, // O in MP
    5, // S in MP
    6, // M in S
    8, // R in S
    9, // X in S
    7, // W in M
    1, // MP in outside
];

// The place of the first name that a parent may hold, by the parent's number; number 10 is outside of all elements.
pub const CHILD_FIRSTS: [u8; 11] = [
    0, // unknown
    0, // MP
    4, // P
    4, // A
    4, // O
    4, // S
    7, // M
    8, // W
    8, // R
    8, // X
    8, // outside
];

// How many names a parent may hold.
pub const CHILD_COUNTS: [u8; 11] = [
    0, // unknown
    4, // MP
    0, // P
    0, // A
    0, // O
    3, // S
    1, // M
    0, // W
    0, // R
    0, // X
    1, // outside
];

// How many numbers the raw values of an element take at most, two to a field: no element has more fields than there are lines.
pub const RAWS: usize = 104;

// The place of each element's first field, by the element's number; one past the table for an element without fields. Six bits to each, the first lowest:
// 52 0 6 14 24 31 33 47 49 51.
pub const FIRSTS: u64 = 932735607463501876;

// How many fields each element has. Six bits to each, the first lowest:
// 0 6 8 10 7 2 14 2 2 1.
pub const COUNTS: u64 = 18587108896178560;

// Of each two fields that exclude each other, the place of the one among its element's fields. Six bits to each, the first lowest:
// 0 0 1 0 2 4 5 6 7 9.
pub const PAIR_ONES: u64 = 164126647627288576;

// Of each two fields that exclude each other, the place of the other. Six bits to each, the first lowest:
// 1 2 2 1 3 8 8 8 8 10.
pub const PAIR_OTHERS: u64 = 182431527676944513;

// The place of each element's first excluded pair. Six bits to each, the first lowest:
// 0 0 0 0 3 3 4 10 10 10.
pub const PAIR_FIRSTS: u64 = 183002993476501504;

// How many excluded pairs each element has. Six bits to each, the first lowest:
// 0 0 0 3 0 1 6 0 0 0.
pub const PAIR_COUNTS: u64 = 413391388672;
