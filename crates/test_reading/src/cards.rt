// Images, a word of 8 bytes to a line: the block at ref r begins at word 2r. A block's first word is its magic and its size.

use show::{DIRECTORY, FILE, FREE, NAME, SUPERBLOCK};

// The file /heel: 40 bytes, 1 to 40, in room 48; the directory /a with 2 slots, and in it the empty file /a/b without room. 320 bytes.
pub const CARD: [u64; 40] = [
    SUPERBLOCK + 16, // 0: root 2, first free 18
    2,
    18,
    0,
    DIRECTORY + 40, // 2: the root
    2,
    10,
    5,
    14,
    11,
    FILE + 64, // 5: /heel; something is left after its end
    40,
    0,
    0x01020304_05060708,
    0x090a0b0c_0d0e0f10,
    0x11121314_15161718,
    0x191a1b1c_1d1e1f20,
    0x21222324_25262728,
    0xeeeeeeee_eeeeeeee,
    0,
    NAME + 4, // 10: "heel"
    0x6865656c_00000000,
    DIRECTORY + 40, // 11: /a
    2,
    17,
    15,
    0,
    0,
    NAME + 1, // 14: "a"
    0x61000000_00000000,
    FILE + 16, // 15: /a/b
    0,
    0,
    0,
    NAME + 1, // 17: "b"
    0x62000000_00000000,
    FREE + 24, // 18: 2 units
    0,
    0,
    0,
];

// A detached pair: two directories, each in the slot of the other. 160 bytes.
pub const DETACHED: [u64; 20] = [
    SUPERBLOCK + 16, // 0: root 2
    2,
    0,
    0,
    DIRECTORY + 24, // 2: the root
    2,
    0,
    0,
    DIRECTORY + 24, // 4: in the slot of 7
    7,
    9,
    7,
    NAME + 1, // 6: "a"
    0x61000000_00000000,
    DIRECTORY + 24, // 7: in the slot of 4
    4,
    6,
    4,
    NAME + 1, // 9: "b"
    0x62000000_00000000,
];

// The largest file, /a: 65,536 bytes in room 65,536; with what it holds and its padding 65,648 bytes.
pub const LARGEST: [u64; 12] = [
    SUPERBLOCK + 16, // 0: root 2
    2,
    0,
    0,
    DIRECTORY + 24, // 2: the root
    2,
    4,
    5,
    NAME + 1, // 4: "a"
    0x61000000_00000000,
    FILE + 65552, // 5: /a
    65536,
];

// The last 24 bytes of what it holds.
pub const LAST: [u64; 3] = [
    0xe8e9eaeb_ecedeeef,
    0xf0f1f2f3_f4f5f6f7,
    0xf8f9fafb_fcfdfeff,
];
