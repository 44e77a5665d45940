// The tables of the scan. Made by tools/scan-table.

// The mode before the page's element.
pub const BEFORE: u8 = 0;

// The mode in the name of a start tag.
pub const TAG: u8 = 2;

// The mode behind the `/` that closes a start tag.
pub const SLASH: u8 = 5;

// The mode between tags.
pub const INSIDE: u8 = 11;

// The mode in an end tag.
pub const CLOSING: u8 = 13;

// The mode behind the page's element.
pub const AFTER: u8 = 14;

// The act: a start tag's name begins.
pub const PUSH: u8 = 48;

// The act: one byte more of it.
pub const GROW: u8 = 49;

// The act: an end tag begins.
pub const CLOSE: u8 = 50;

// The act: the start tag closes itself.
pub const BARE: u8 = 51;

// The act: the element ends.
pub const UP: u8 = 52;

// The act: no well-formed page has this byte here.
pub const WRONG: u8 = 53;

// The kind of each byte, 0 to 255.
pub const KINDS: [u8; 256] = [
    0, // 0
    0, // 1
    0, // 2
    0, // 3
    0, // 4
    0, // 5
    0, // 6
    0, // 7
    0, // 8
    1, // 9
    1, // 10
    0, // 11
    0, // 12
    1, // 13
    0, // 14
    0, // 15
    0, // 16
    0, // 17
    0, // 18
    0, // 19
    0, // 20
    0, // 21
    0, // 22
    0, // 23
    0, // 24
    0, // 25
    0, // 26
    0, // 27
    0, // 28
    0, // 29
    0, // 30
    0, // 31
    1, // 32
    25, // 33
    20, // 34
    23, // 35
    25, // 36
    25, // 37
    22, // 38
    21, // 39
    25, // 40
    25, // 41
    25, // 42
    25, // 43
    25, // 44
    25, // 45
    25, // 46
    18, // 47
    2, // 48
    2, // 49
    2, // 50
    2, // 51
    2, // 52
    2, // 53
    2, // 54
    2, // 55
    2, // 56
    2, // 57
    25, // 58
    24, // 59
    16, // 60
    19, // 61
    17, // 62
    25, // 63
    25, // 64
    3, // 65
    3, // 66
    3, // 67
    3, // 68
    3, // 69
    3, // 70
    15, // 71
    15, // 72
    15, // 73
    15, // 74
    15, // 75
    15, // 76
    15, // 77
    15, // 78
    15, // 79
    15, // 80
    15, // 81
    15, // 82
    15, // 83
    15, // 84
    15, // 85
    15, // 86
    15, // 87
    15, // 88
    15, // 89
    15, // 90
    25, // 91
    25, // 92
    25, // 93
    25, // 94
    25, // 95
    25, // 96
    4, // 97
    3, // 98
    3, // 99
    3, // 100
    3, // 101
    3, // 102
    8, // 103
    15, // 104
    15, // 105
    15, // 106
    15, // 107
    7, // 108
    5, // 109
    15, // 110
    12, // 111
    6, // 112
    10, // 113
    15, // 114
    13, // 115
    9, // 116
    11, // 117
    15, // 118
    15, // 119
    14, // 120
    15, // 121
    15, // 122
    25, // 123
    25, // 124
    25, // 125
    25, // 126
    0, // 127
    0, // 128
    0, // 129
    0, // 130
    0, // 131
    0, // 132
    0, // 133
    0, // 134
    0, // 135
    0, // 136
    0, // 137
    0, // 138
    0, // 139
    0, // 140
    0, // 141
    0, // 142
    0, // 143
    0, // 144
    0, // 145
    0, // 146
    0, // 147
    0, // 148
    0, // 149
    0, // 150
    0, // 151
    0, // 152
    0, // 153
    0, // 154
    0, // 155
    0, // 156
    0, // 157
    0, // 158
    0, // 159
    25, // 160
    25, // 161
    25, // 162
    25, // 163
    25, // 164
    25, // 165
    25, // 166
    25, // 167
    25, // 168
    25, // 169
    25, // 170
    25, // 171
    25, // 172
    25, // 173
    25, // 174
    25, // 175
    25, // 176
    25, // 177
    25, // 178
    25, // 179
    25, // 180
    25, // 181
    25, // 182
    25, // 183
    25, // 184
    25, // 185
    25, // 186
    25, // 187
    25, // 188
    25, // 189
    25, // 190
    25, // 191
    25, // 192
    25, // 193
    25, // 194
    25, // 195
    25, // 196
    25, // 197
    25, // 198
    25, // 199
    25, // 200
    25, // 201
    25, // 202
    25, // 203
    25, // 204
    25, // 205
    25, // 206
    25, // 207
    25, // 208
    25, // 209
    25, // 210
    25, // 211
    25, // 212
    25, // 213
    25, // 214
    25, // 215
    25, // 216
    25, // 217
    25, // 218
    25, // 219
    25, // 220
    25, // 221
    25, // 222
    25, // 223
    25, // 224
    25, // 225
    25, // 226
    25, // 227
    25, // 228
    25, // 229
    25, // 230
    25, // 231
    25, // 232
    25, // 233
    25, // 234
    25, // 235
    25, // 236
    25, // 237
    25, // 238
    25, // 239
    25, // 240
    25, // 241
    25, // 242
    25, // 243
    25, // 244
    25, // 245
    25, // 246
    25, // 247
    25, // 248
    25, // 249
    25, // 250
    25, // 251
    25, // 252
    25, // 253
    25, // 254
    25, // 255
];

// For each of 41 modes, at each of 26 kinds, the next mode (below 48) or an act.
pub const NEXT: [u8; 1066] = [
    53, // before, then refused
    0, // before, then space
    53, // before, then digit
    53, // before, then hex letter
    53, // before, then a
    53, // before, then m
    53, // before, then p
    53, // before, then l
    53, // before, then g
    53, // before, then t
    53, // before, then q
    53, // before, then u
    53, // before, then o
    53, // before, then s
    53, // before, then x
    53, // before, then letter
    1, // before, then <
    53, // before, then >
    53, // before, then /
    53, // before, then =
    53, // before, then "
    53, // before, then '
    53, // before, then &
    53, // before, then #
    53, // before, then ;
    53, // before, then mark
    53, // first, then refused
    53, // first, then space
    53, // first, then digit
    48, // first, then hex letter
    48, // first, then a
    48, // first, then m
    48, // first, then p
    48, // first, then l
    48, // first, then g
    48, // first, then t
    48, // first, then q
    48, // first, then u
    48, // first, then o
    48, // first, then s
    48, // first, then x
    48, // first, then letter
    53, // first, then <
    53, // first, then >
    53, // first, then /
    53, // first, then =
    53, // first, then "
    53, // first, then '
    53, // first, then &
    53, // first, then #
    53, // first, then ;
    53, // first, then mark
    53, // tag, then refused
    4, // tag, then space
    49, // tag, then digit
    49, // tag, then hex letter
    49, // tag, then a
    49, // tag, then m
    49, // tag, then p
    49, // tag, then l
    49, // tag, then g
    49, // tag, then t
    49, // tag, then q
    49, // tag, then u
    49, // tag, then o
    49, // tag, then s
    49, // tag, then x
    49, // tag, then letter
    53, // tag, then <
    11, // tag, then >
    51, // tag, then /
    53, // tag, then =
    53, // tag, then "
    53, // tag, then '
    53, // tag, then &
    53, // tag, then #
    53, // tag, then ;
    53, // tag, then mark
    53, // gap, then refused
    4, // gap, then space
    53, // gap, then digit
    53, // gap, then hex letter
    53, // gap, then a
    53, // gap, then m
    53, // gap, then p
    53, // gap, then l
    53, // gap, then g
    53, // gap, then t
    53, // gap, then q
    53, // gap, then u
    53, // gap, then o
    53, // gap, then s
    53, // gap, then x
    53, // gap, then letter
    53, // gap, then <
    11, // gap, then >
    51, // gap, then /
    53, // gap, then =
    53, // gap, then "
    53, // gap, then '
    53, // gap, then &
    53, // gap, then #
    53, // gap, then ;
    53, // gap, then mark
    53, // spaced, then refused
    4, // spaced, then space
    53, // spaced, then digit
    6, // spaced, then hex letter
    6, // spaced, then a
    6, // spaced, then m
    6, // spaced, then p
    6, // spaced, then l
    6, // spaced, then g
    6, // spaced, then t
    6, // spaced, then q
    6, // spaced, then u
    6, // spaced, then o
    6, // spaced, then s
    6, // spaced, then x
    6, // spaced, then letter
    53, // spaced, then <
    11, // spaced, then >
    51, // spaced, then /
    53, // spaced, then =
    53, // spaced, then "
    53, // spaced, then '
    53, // spaced, then &
    53, // spaced, then #
    53, // spaced, then ;
    53, // spaced, then mark
    53, // slash, then refused
    53, // slash, then space
    53, // slash, then digit
    53, // slash, then hex letter
    53, // slash, then a
    53, // slash, then m
    53, // slash, then p
    53, // slash, then l
    53, // slash, then g
    53, // slash, then t
    53, // slash, then q
    53, // slash, then u
    53, // slash, then o
    53, // slash, then s
    53, // slash, then x
    53, // slash, then letter
    53, // slash, then <
    52, // slash, then >
    53, // slash, then /
    53, // slash, then =
    53, // slash, then "
    53, // slash, then '
    53, // slash, then &
    53, // slash, then #
    53, // slash, then ;
    53, // slash, then mark
    53, // name, then refused
    7, // name, then space
    6, // name, then digit
    6, // name, then hex letter
    6, // name, then a
    6, // name, then m
    6, // name, then p
    6, // name, then l
    6, // name, then g
    6, // name, then t
    6, // name, then q
    6, // name, then u
    6, // name, then o
    6, // name, then s
    6, // name, then x
    6, // name, then letter
    53, // name, then <
    53, // name, then >
    53, // name, then /
    8, // name, then =
    53, // name, then "
    53, // name, then '
    53, // name, then &
    53, // name, then #
    53, // name, then ;
    53, // name, then mark
    53, // equals, then refused
    7, // equals, then space
    53, // equals, then digit
    53, // equals, then hex letter
    53, // equals, then a
    53, // equals, then m
    53, // equals, then p
    53, // equals, then l
    53, // equals, then g
    53, // equals, then t
    53, // equals, then q
    53, // equals, then u
    53, // equals, then o
    53, // equals, then s
    53, // equals, then x
    53, // equals, then letter
    53, // equals, then <
    53, // equals, then >
    53, // equals, then /
    8, // equals, then =
    53, // equals, then "
    53, // equals, then '
    53, // equals, then &
    53, // equals, then #
    53, // equals, then ;
    53, // equals, then mark
    53, // quote, then refused
    8, // quote, then space
    53, // quote, then digit
    53, // quote, then hex letter
    53, // quote, then a
    53, // quote, then m
    53, // quote, then p
    53, // quote, then l
    53, // quote, then g
    53, // quote, then t
    53, // quote, then q
    53, // quote, then u
    53, // quote, then o
    53, // quote, then s
    53, // quote, then x
    53, // quote, then letter
    53, // quote, then <
    53, // quote, then >
    53, // quote, then /
    53, // quote, then =
    9, // quote, then "
    10, // quote, then '
    53, // quote, then &
    53, // quote, then #
    53, // quote, then ;
    53, // quote, then mark
    53, // double, then refused
    9, // double, then space
    9, // double, then digit
    9, // double, then hex letter
    9, // double, then a
    9, // double, then m
    9, // double, then p
    9, // double, then l
    9, // double, then g
    9, // double, then t
    9, // double, then q
    9, // double, then u
    9, // double, then o
    9, // double, then s
    9, // double, then x
    9, // double, then letter
    53, // double, then <
    9, // double, then >
    9, // double, then /
    9, // double, then =
    3, // double, then "
    9, // double, then '
    15, // double, then &
    9, // double, then #
    9, // double, then ;
    9, // double, then mark
    53, // single, then refused
    10, // single, then space
    10, // single, then digit
    10, // single, then hex letter
    10, // single, then a
    10, // single, then m
    10, // single, then p
    10, // single, then l
    10, // single, then g
    10, // single, then t
    10, // single, then q
    10, // single, then u
    10, // single, then o
    10, // single, then s
    10, // single, then x
    10, // single, then letter
    53, // single, then <
    10, // single, then >
    10, // single, then /
    10, // single, then =
    10, // single, then "
    3, // single, then '
    28, // single, then &
    10, // single, then #
    10, // single, then ;
    10, // single, then mark
    53, // inside, then refused
    11, // inside, then space
    53, // inside, then digit
    53, // inside, then hex letter
    53, // inside, then a
    53, // inside, then m
    53, // inside, then p
    53, // inside, then l
    53, // inside, then g
    53, // inside, then t
    53, // inside, then q
    53, // inside, then u
    53, // inside, then o
    53, // inside, then s
    53, // inside, then x
    53, // inside, then letter
    12, // inside, then <
    53, // inside, then >
    53, // inside, then /
    53, // inside, then =
    53, // inside, then "
    53, // inside, then '
    53, // inside, then &
    53, // inside, then #
    53, // inside, then ;
    53, // inside, then mark
    53, // less, then refused
    53, // less, then space
    53, // less, then digit
    48, // less, then hex letter
    48, // less, then a
    48, // less, then m
    48, // less, then p
    48, // less, then l
    48, // less, then g
    48, // less, then t
    48, // less, then q
    48, // less, then u
    48, // less, then o
    48, // less, then s
    48, // less, then x
    48, // less, then letter
    53, // less, then <
    53, // less, then >
    50, // less, then /
    53, // less, then =
    53, // less, then "
    53, // less, then '
    53, // less, then &
    53, // less, then #
    53, // less, then ;
    53, // less, then mark
    53, // closing, then refused
    13, // closing, then space
    53, // closing, then digit
    53, // closing, then hex letter
    53, // closing, then a
    53, // closing, then m
    53, // closing, then p
    53, // closing, then l
    53, // closing, then g
    53, // closing, then t
    53, // closing, then q
    53, // closing, then u
    53, // closing, then o
    53, // closing, then s
    53, // closing, then x
    53, // closing, then letter
    53, // closing, then <
    52, // closing, then >
    53, // closing, then /
    53, // closing, then =
    53, // closing, then "
    53, // closing, then '
    53, // closing, then &
    53, // closing, then #
    53, // closing, then ;
    53, // closing, then mark
    53, // after, then refused
    14, // after, then space
    53, // after, then digit
    53, // after, then hex letter
    53, // after, then a
    53, // after, then m
    53, // after, then p
    53, // after, then l
    53, // after, then g
    53, // after, then t
    53, // after, then q
    53, // after, then u
    53, // after, then o
    53, // after, then s
    53, // after, then x
    53, // after, then letter
    53, // after, then <
    53, // after, then >
    53, // after, then /
    53, // after, then =
    53, // after, then "
    53, // after, then '
    53, // after, then &
    53, // after, then #
    53, // after, then ;
    53, // after, then mark
    53, // double &, then refused
    53, // double &, then space
    53, // double &, then digit
    53, // double &, then hex letter
    16, // double &, then a
    53, // double &, then m
    53, // double &, then p
    21, // double &, then l
    21, // double &, then g
    53, // double &, then t
    22, // double &, then q
    53, // double &, then u
    53, // double &, then o
    53, // double &, then s
    53, // double &, then x
    53, // double &, then letter
    53, // double &, then <
    53, // double &, then >
    53, // double &, then /
    53, // double &, then =
    53, // double &, then "
    53, // double &, then '
    53, // double &, then &
    17, // double &, then #
    53, // double &, then ;
    53, // double &, then mark
    53, // double &a, then refused
    53, // double &a, then space
    53, // double &a, then digit
    53, // double &a, then hex letter
    53, // double &a, then a
    24, // double &a, then m
    25, // double &a, then p
    53, // double &a, then l
    53, // double &a, then g
    53, // double &a, then t
    53, // double &a, then q
    53, // double &a, then u
    53, // double &a, then o
    53, // double &a, then s
    53, // double &a, then x
    53, // double &a, then letter
    53, // double &a, then <
    53, // double &a, then >
    53, // double &a, then /
    53, // double &a, then =
    53, // double &a, then "
    53, // double &a, then '
    53, // double &a, then &
    53, // double &a, then #
    53, // double &a, then ;
    53, // double &a, then mark
    53, // double &#, then refused
    53, // double &#, then space
    19, // double &#, then digit
    53, // double &#, then hex letter
    53, // double &#, then a
    53, // double &#, then m
    53, // double &#, then p
    53, // double &#, then l
    53, // double &#, then g
    53, // double &#, then t
    53, // double &#, then q
    53, // double &#, then u
    53, // double &#, then o
    53, // double &#, then s
    18, // double &#, then x
    53, // double &#, then letter
    53, // double &#, then <
    53, // double &#, then >
    53, // double &#, then /
    53, // double &#, then =
    53, // double &#, then "
    53, // double &#, then '
    53, // double &#, then &
    53, // double &#, then #
    53, // double &#, then ;
    53, // double &#, then mark
    53, // double &#x, then refused
    53, // double &#x, then space
    20, // double &#x, then digit
    20, // double &#x, then hex letter
    20, // double &#x, then a
    53, // double &#x, then m
    53, // double &#x, then p
    53, // double &#x, then l
    53, // double &#x, then g
    53, // double &#x, then t
    53, // double &#x, then q
    53, // double &#x, then u
    53, // double &#x, then o
    53, // double &#x, then s
    53, // double &#x, then x
    53, // double &#x, then letter
    53, // double &#x, then <
    53, // double &#x, then >
    53, // double &#x, then /
    53, // double &#x, then =
    53, // double &#x, then "
    53, // double &#x, then '
    53, // double &#x, then &
    53, // double &#x, then #
    53, // double &#x, then ;
    53, // double &#x, then mark
    53, // double dec, then refused
    53, // double dec, then space
    19, // double dec, then digit
    53, // double dec, then hex letter
    53, // double dec, then a
    53, // double dec, then m
    53, // double dec, then p
    53, // double dec, then l
    53, // double dec, then g
    53, // double dec, then t
    53, // double dec, then q
    53, // double dec, then u
    53, // double dec, then o
    53, // double dec, then s
    53, // double dec, then x
    53, // double dec, then letter
    53, // double dec, then <
    53, // double dec, then >
    53, // double dec, then /
    53, // double dec, then =
    53, // double dec, then "
    53, // double dec, then '
    53, // double dec, then &
    53, // double dec, then #
    9, // double dec, then ;
    53, // double dec, then mark
    53, // double hex, then refused
    53, // double hex, then space
    20, // double hex, then digit
    20, // double hex, then hex letter
    20, // double hex, then a
    53, // double hex, then m
    53, // double hex, then p
    53, // double hex, then l
    53, // double hex, then g
    53, // double hex, then t
    53, // double hex, then q
    53, // double hex, then u
    53, // double hex, then o
    53, // double hex, then s
    53, // double hex, then x
    53, // double hex, then letter
    53, // double hex, then <
    53, // double hex, then >
    53, // double hex, then /
    53, // double hex, then =
    53, // double hex, then "
    53, // double hex, then '
    53, // double hex, then &
    53, // double hex, then #
    9, // double hex, then ;
    53, // double hex, then mark
    53, // double t;, then refused
    53, // double t;, then space
    53, // double t;, then digit
    53, // double t;, then hex letter
    53, // double t;, then a
    53, // double t;, then m
    53, // double t;, then p
    53, // double t;, then l
    53, // double t;, then g
    27, // double t;, then t
    53, // double t;, then q
    53, // double t;, then u
    53, // double t;, then o
    53, // double t;, then s
    53, // double t;, then x
    53, // double t;, then letter
    53, // double t;, then <
    53, // double t;, then >
    53, // double t;, then /
    53, // double t;, then =
    53, // double t;, then "
    53, // double t;, then '
    53, // double t;, then &
    53, // double t;, then #
    53, // double t;, then ;
    53, // double t;, then mark
    53, // double uot;, then refused
    53, // double uot;, then space
    53, // double uot;, then digit
    53, // double uot;, then hex letter
    53, // double uot;, then a
    53, // double uot;, then m
    53, // double uot;, then p
    53, // double uot;, then l
    53, // double uot;, then g
    53, // double uot;, then t
    53, // double uot;, then q
    23, // double uot;, then u
    53, // double uot;, then o
    53, // double uot;, then s
    53, // double uot;, then x
    53, // double uot;, then letter
    53, // double uot;, then <
    53, // double uot;, then >
    53, // double uot;, then /
    53, // double uot;, then =
    53, // double uot;, then "
    53, // double uot;, then '
    53, // double uot;, then &
    53, // double uot;, then #
    53, // double uot;, then ;
    53, // double uot;, then mark
    53, // double ot;, then refused
    53, // double ot;, then space
    53, // double ot;, then digit
    53, // double ot;, then hex letter
    53, // double ot;, then a
    53, // double ot;, then m
    53, // double ot;, then p
    53, // double ot;, then l
    53, // double ot;, then g
    53, // double ot;, then t
    53, // double ot;, then q
    53, // double ot;, then u
    21, // double ot;, then o
    53, // double ot;, then s
    53, // double ot;, then x
    53, // double ot;, then letter
    53, // double ot;, then <
    53, // double ot;, then >
    53, // double ot;, then /
    53, // double ot;, then =
    53, // double ot;, then "
    53, // double ot;, then '
    53, // double ot;, then &
    53, // double ot;, then #
    53, // double ot;, then ;
    53, // double ot;, then mark
    53, // double p;, then refused
    53, // double p;, then space
    53, // double p;, then digit
    53, // double p;, then hex letter
    53, // double p;, then a
    53, // double p;, then m
    27, // double p;, then p
    53, // double p;, then l
    53, // double p;, then g
    53, // double p;, then t
    53, // double p;, then q
    53, // double p;, then u
    53, // double p;, then o
    53, // double p;, then s
    53, // double p;, then x
    53, // double p;, then letter
    53, // double p;, then <
    53, // double p;, then >
    53, // double p;, then /
    53, // double p;, then =
    53, // double p;, then "
    53, // double p;, then '
    53, // double p;, then &
    53, // double p;, then #
    53, // double p;, then ;
    53, // double p;, then mark
    53, // double os;, then refused
    53, // double os;, then space
    53, // double os;, then digit
    53, // double os;, then hex letter
    53, // double os;, then a
    53, // double os;, then m
    53, // double os;, then p
    53, // double os;, then l
    53, // double os;, then g
    53, // double os;, then t
    53, // double os;, then q
    53, // double os;, then u
    26, // double os;, then o
    53, // double os;, then s
    53, // double os;, then x
    53, // double os;, then letter
    53, // double os;, then <
    53, // double os;, then >
    53, // double os;, then /
    53, // double os;, then =
    53, // double os;, then "
    53, // double os;, then '
    53, // double os;, then &
    53, // double os;, then #
    53, // double os;, then ;
    53, // double os;, then mark
    53, // double s;, then refused
    53, // double s;, then space
    53, // double s;, then digit
    53, // double s;, then hex letter
    53, // double s;, then a
    53, // double s;, then m
    53, // double s;, then p
    53, // double s;, then l
    53, // double s;, then g
    53, // double s;, then t
    53, // double s;, then q
    53, // double s;, then u
    53, // double s;, then o
    27, // double s;, then s
    53, // double s;, then x
    53, // double s;, then letter
    53, // double s;, then <
    53, // double s;, then >
    53, // double s;, then /
    53, // double s;, then =
    53, // double s;, then "
    53, // double s;, then '
    53, // double s;, then &
    53, // double s;, then #
    53, // double s;, then ;
    53, // double s;, then mark
    53, // double ;, then refused
    53, // double ;, then space
    53, // double ;, then digit
    53, // double ;, then hex letter
    53, // double ;, then a
    53, // double ;, then m
    53, // double ;, then p
    53, // double ;, then l
    53, // double ;, then g
    53, // double ;, then t
    53, // double ;, then q
    53, // double ;, then u
    53, // double ;, then o
    53, // double ;, then s
    53, // double ;, then x
    53, // double ;, then letter
    53, // double ;, then <
    53, // double ;, then >
    53, // double ;, then /
    53, // double ;, then =
    53, // double ;, then "
    53, // double ;, then '
    53, // double ;, then &
    53, // double ;, then #
    9, // double ;, then ;
    53, // double ;, then mark
    53, // single &, then refused
    53, // single &, then space
    53, // single &, then digit
    53, // single &, then hex letter
    29, // single &, then a
    53, // single &, then m
    53, // single &, then p
    34, // single &, then l
    34, // single &, then g
    53, // single &, then t
    35, // single &, then q
    53, // single &, then u
    53, // single &, then o
    53, // single &, then s
    53, // single &, then x
    53, // single &, then letter
    53, // single &, then <
    53, // single &, then >
    53, // single &, then /
    53, // single &, then =
    53, // single &, then "
    53, // single &, then '
    53, // single &, then &
    30, // single &, then #
    53, // single &, then ;
    53, // single &, then mark
    53, // single &a, then refused
    53, // single &a, then space
    53, // single &a, then digit
    53, // single &a, then hex letter
    53, // single &a, then a
    37, // single &a, then m
    38, // single &a, then p
    53, // single &a, then l
    53, // single &a, then g
    53, // single &a, then t
    53, // single &a, then q
    53, // single &a, then u
    53, // single &a, then o
    53, // single &a, then s
    53, // single &a, then x
    53, // single &a, then letter
    53, // single &a, then <
    53, // single &a, then >
    53, // single &a, then /
    53, // single &a, then =
    53, // single &a, then "
    53, // single &a, then '
    53, // single &a, then &
    53, // single &a, then #
    53, // single &a, then ;
    53, // single &a, then mark
    53, // single &#, then refused
    53, // single &#, then space
    32, // single &#, then digit
    53, // single &#, then hex letter
    53, // single &#, then a
    53, // single &#, then m
    53, // single &#, then p
    53, // single &#, then l
    53, // single &#, then g
    53, // single &#, then t
    53, // single &#, then q
    53, // single &#, then u
    53, // single &#, then o
    53, // single &#, then s
    31, // single &#, then x
    53, // single &#, then letter
    53, // single &#, then <
    53, // single &#, then >
    53, // single &#, then /
    53, // single &#, then =
    53, // single &#, then "
    53, // single &#, then '
    53, // single &#, then &
    53, // single &#, then #
    53, // single &#, then ;
    53, // single &#, then mark
    53, // single &#x, then refused
    53, // single &#x, then space
    33, // single &#x, then digit
    33, // single &#x, then hex letter
    33, // single &#x, then a
    53, // single &#x, then m
    53, // single &#x, then p
    53, // single &#x, then l
    53, // single &#x, then g
    53, // single &#x, then t
    53, // single &#x, then q
    53, // single &#x, then u
    53, // single &#x, then o
    53, // single &#x, then s
    53, // single &#x, then x
    53, // single &#x, then letter
    53, // single &#x, then <
    53, // single &#x, then >
    53, // single &#x, then /
    53, // single &#x, then =
    53, // single &#x, then "
    53, // single &#x, then '
    53, // single &#x, then &
    53, // single &#x, then #
    53, // single &#x, then ;
    53, // single &#x, then mark
    53, // single dec, then refused
    53, // single dec, then space
    32, // single dec, then digit
    53, // single dec, then hex letter
    53, // single dec, then a
    53, // single dec, then m
    53, // single dec, then p
    53, // single dec, then l
    53, // single dec, then g
    53, // single dec, then t
    53, // single dec, then q
    53, // single dec, then u
    53, // single dec, then o
    53, // single dec, then s
    53, // single dec, then x
    53, // single dec, then letter
    53, // single dec, then <
    53, // single dec, then >
    53, // single dec, then /
    53, // single dec, then =
    53, // single dec, then "
    53, // single dec, then '
    53, // single dec, then &
    53, // single dec, then #
    10, // single dec, then ;
    53, // single dec, then mark
    53, // single hex, then refused
    53, // single hex, then space
    33, // single hex, then digit
    33, // single hex, then hex letter
    33, // single hex, then a
    53, // single hex, then m
    53, // single hex, then p
    53, // single hex, then l
    53, // single hex, then g
    53, // single hex, then t
    53, // single hex, then q
    53, // single hex, then u
    53, // single hex, then o
    53, // single hex, then s
    53, // single hex, then x
    53, // single hex, then letter
    53, // single hex, then <
    53, // single hex, then >
    53, // single hex, then /
    53, // single hex, then =
    53, // single hex, then "
    53, // single hex, then '
    53, // single hex, then &
    53, // single hex, then #
    10, // single hex, then ;
    53, // single hex, then mark
    53, // single t;, then refused
    53, // single t;, then space
    53, // single t;, then digit
    53, // single t;, then hex letter
    53, // single t;, then a
    53, // single t;, then m
    53, // single t;, then p
    53, // single t;, then l
    53, // single t;, then g
    40, // single t;, then t
    53, // single t;, then q
    53, // single t;, then u
    53, // single t;, then o
    53, // single t;, then s
    53, // single t;, then x
    53, // single t;, then letter
    53, // single t;, then <
    53, // single t;, then >
    53, // single t;, then /
    53, // single t;, then =
    53, // single t;, then "
    53, // single t;, then '
    53, // single t;, then &
    53, // single t;, then #
    53, // single t;, then ;
    53, // single t;, then mark
    53, // single uot;, then refused
    53, // single uot;, then space
    53, // single uot;, then digit
    53, // single uot;, then hex letter
    53, // single uot;, then a
    53, // single uot;, then m
    53, // single uot;, then p
    53, // single uot;, then l
    53, // single uot;, then g
    53, // single uot;, then t
    53, // single uot;, then q
    36, // single uot;, then u
    53, // single uot;, then o
    53, // single uot;, then s
    53, // single uot;, then x
    53, // single uot;, then letter
    53, // single uot;, then <
    53, // single uot;, then >
    53, // single uot;, then /
    53, // single uot;, then =
    53, // single uot;, then "
    53, // single uot;, then '
    53, // single uot;, then &
    53, // single uot;, then #
    53, // single uot;, then ;
    53, // single uot;, then mark
    53, // single ot;, then refused
    53, // single ot;, then space
    53, // single ot;, then digit
    53, // single ot;, then hex letter
    53, // single ot;, then a
    53, // single ot;, then m
    53, // single ot;, then p
    53, // single ot;, then l
    53, // single ot;, then g
    53, // single ot;, then t
    53, // single ot;, then q
    53, // single ot;, then u
    34, // single ot;, then o
    53, // single ot;, then s
    53, // single ot;, then x
    53, // single ot;, then letter
    53, // single ot;, then <
    53, // single ot;, then >
    53, // single ot;, then /
    53, // single ot;, then =
    53, // single ot;, then "
    53, // single ot;, then '
    53, // single ot;, then &
    53, // single ot;, then #
    53, // single ot;, then ;
    53, // single ot;, then mark
    53, // single p;, then refused
    53, // single p;, then space
    53, // single p;, then digit
    53, // single p;, then hex letter
    53, // single p;, then a
    53, // single p;, then m
    40, // single p;, then p
    53, // single p;, then l
    53, // single p;, then g
    53, // single p;, then t
    53, // single p;, then q
    53, // single p;, then u
    53, // single p;, then o
    53, // single p;, then s
    53, // single p;, then x
    53, // single p;, then letter
    53, // single p;, then <
    53, // single p;, then >
    53, // single p;, then /
    53, // single p;, then =
    53, // single p;, then "
    53, // single p;, then '
    53, // single p;, then &
    53, // single p;, then #
    53, // single p;, then ;
    53, // single p;, then mark
    53, // single os;, then refused
    53, // single os;, then space
    53, // single os;, then digit
    53, // single os;, then hex letter
    53, // single os;, then a
    53, // single os;, then m
    53, // single os;, then p
    53, // single os;, then l
    53, // single os;, then g
    53, // single os;, then t
    53, // single os;, then q
    53, // single os;, then u
    39, // single os;, then o
    53, // single os;, then s
    53, // single os;, then x
    53, // single os;, then letter
    53, // single os;, then <
    53, // single os;, then >
    53, // single os;, then /
    53, // single os;, then =
    53, // single os;, then "
    53, // single os;, then '
    53, // single os;, then &
    53, // single os;, then #
    53, // single os;, then ;
    53, // single os;, then mark
    53, // single s;, then refused
    53, // single s;, then space
    53, // single s;, then digit
    53, // single s;, then hex letter
    53, // single s;, then a
    53, // single s;, then m
    53, // single s;, then p
    53, // single s;, then l
    53, // single s;, then g
    53, // single s;, then t
    53, // single s;, then q
    53, // single s;, then u
    53, // single s;, then o
    40, // single s;, then s
    53, // single s;, then x
    53, // single s;, then letter
    53, // single s;, then <
    53, // single s;, then >
    53, // single s;, then /
    53, // single s;, then =
    53, // single s;, then "
    53, // single s;, then '
    53, // single s;, then &
    53, // single s;, then #
    53, // single s;, then ;
    53, // single s;, then mark
    53, // single ;, then refused
    53, // single ;, then space
    53, // single ;, then digit
    53, // single ;, then hex letter
    53, // single ;, then a
    53, // single ;, then m
    53, // single ;, then p
    53, // single ;, then l
    53, // single ;, then g
    53, // single ;, then t
    53, // single ;, then q
    53, // single ;, then u
    53, // single ;, then o
    53, // single ;, then s
    53, // single ;, then x
    53, // single ;, then letter
    53, // single ;, then <
    53, // single ;, then >
    53, // single ;, then /
    53, // single ;, then =
    53, // single ;, then "
    53, // single ;, then '
    53, // single ;, then &
    53, // single ;, then #
    10, // single ;, then ;
    53, // single ;, then mark
];
