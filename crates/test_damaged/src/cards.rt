// Undamaged images, a word of 8 bytes to a line: the block at ref r begins at word 2r. A block's first word is its magic and its size.

use crate::changed::Change;
use show::{DIRECTORY, FILE, FREE, NAME, SUPERBLOCK};

// Formatted with 2 slots; then the file /heel with room 32 and the directory /a with 1 slot were made. 256 bytes.
pub const CARD: [u64; 32] = [
    SUPERBLOCK + 16, // 0: root 2, first free 13
    2,
    13,
    0,
    DIRECTORY + 40, // 2: the root
    2,
    9,
    5,
    12,
    10,
    FILE + 48, // 5: /heel, empty
    0,
    0,
    0,
    0,
    0,
    0,
    0,
    NAME + 4, // 9: "heel"
    0x6865656c_00000000,
    DIRECTORY + 24, // 10: /a
    2,
    0,
    0,
    NAME + 1, // 12: "a"
    0x61000000_00000000,
    FREE + 40, // 13: 3 units, the last of the chain
    0,
    0,
    0,
    0,
    0,
];

// What changes on the card as /heel is removed: 5 units at ref 5 are free, and the chain goes on to 13.
pub const REMOVED: [Change; 7] = [
    (2, 5),
    (6, 0),
    (7, 0),
    (10, FREE + 72),
    (11, 13),
    (18, 0),
    (19, 0),
];

// The directory /a/b, and no free block. 160 bytes.
pub const NESTED: [u64; 20] = [
    SUPERBLOCK + 16, // 0: root 2
    2,
    0,
    0,
    DIRECTORY + 24, // 2: the root
    2,
    6,
    4,
    DIRECTORY + 24, // 4: /a
    2,
    9,
    7,
    NAME + 1, // 6: "a"
    0x61000000_00000000,
    DIRECTORY + 24, // 7: /a/b
    4,
    0,
    0,
    NAME + 1, // 9: "b"
    0x62000000_00000000,
];

// A root of 1 slot and nothing else. 64 bytes.
pub const BARE: [u64; 8] = [SUPERBLOCK + 16, 2, 0, 0, DIRECTORY + 24, 2, 0, 0];

// A file with a name of 64 bytes and no room. 176 bytes.
pub const LONG_NAME: [u64; 22] = [
    SUPERBLOCK + 16, // 0: root 2
    2,
    0,
    0,
    DIRECTORY + 24, // 2: the root
    2,
    4,
    9,
    NAME + 64, // 4: 64 bytes
    0x61616161_61616161,
    0x61616161_61616161,
    0x61616161_61616161,
    0x61616161_61616161,
    0x61616161_61616161,
    0x61616161_61616161,
    0x61616161_61616161,
    0x61616161_61616161,
    0,
    FILE + 16, // 9: the file
    0,
    0,
    0,
];

// A file with room 65,536, with the zeros after the last word. 65,648 bytes.
pub const LONG_FILE: [u64; 12] = [
    SUPERBLOCK + 16, // 0: root 2
    2,
    0,
    0,
    DIRECTORY + 24, // 2: the root
    2,
    4,
    5,
    NAME + 1, // 4: "a"
    0x61000000_00000000,
    FILE + 65552, // 5: the file
    0,
];

// A root with 1,024 slots, with the zeros after the last word. 16,432 bytes.
pub const LONG_DIRECTORY: [u64; 6] = [SUPERBLOCK + 16, 2, 0, 0, DIRECTORY + 16392, 2];

// A root of 1 slot, and the rest of 1,048,576 bytes free.
pub const LONGEST: [u64; 10] = [
    SUPERBLOCK + 16,
    2,
    4,
    0,
    DIRECTORY + 24,
    2,
    0,
    0,
    FREE + 1048504,
    0,
];

// 17 directories, each in the one before it: the one at depth i is at ref 3i + 2, and the name for the next is at 3i + 4. The one at depth 17
// is empty. 880 bytes; the first 832 are an image with 16 directories once the slot of the last is emptied.
pub const DEEP: [u64; 110] = [
    SUPERBLOCK + 16, // 0: root 2
    2,
    0,
    0,
    DIRECTORY + 24, // 2: depth 0
    2,
    4,
    5,
    NAME + 1,
    0x61000000_00000000,
    DIRECTORY + 24, // 5: depth 1
    2,
    7,
    8,
    NAME + 1,
    0x61000000_00000000,
    DIRECTORY + 24, // 8: depth 2
    5,
    10,
    11,
    NAME + 1,
    0x61000000_00000000,
    DIRECTORY + 24, // 11: depth 3
    8,
    13,
    14,
    NAME + 1,
    0x61000000_00000000,
    DIRECTORY + 24, // 14: depth 4
    11,
    16,
    17,
    NAME + 1,
    0x61000000_00000000,
    DIRECTORY + 24, // 17: depth 5
    14,
    19,
    20,
    NAME + 1,
    0x61000000_00000000,
    DIRECTORY + 24, // 20: depth 6
    17,
    22,
    23,
    NAME + 1,
    0x61000000_00000000,
    DIRECTORY + 24, // 23: depth 7
    20,
    25,
    26,
    NAME + 1,
    0x61000000_00000000,
    DIRECTORY + 24, // 26: depth 8
    23,
    28,
    29,
    NAME + 1,
    0x61000000_00000000,
    DIRECTORY + 24, // 29: depth 9
    26,
    31,
    32,
    NAME + 1,
    0x61000000_00000000,
    DIRECTORY + 24, // 32: depth 10
    29,
    34,
    35,
    NAME + 1,
    0x61000000_00000000,
    DIRECTORY + 24, // 35: depth 11
    32,
    37,
    38,
    NAME + 1,
    0x61000000_00000000,
    DIRECTORY + 24, // 38: depth 12
    35,
    40,
    41,
    NAME + 1,
    0x61000000_00000000,
    DIRECTORY + 24, // 41: depth 13
    38,
    43,
    44,
    NAME + 1,
    0x61000000_00000000,
    DIRECTORY + 24, // 44: depth 14
    41,
    46,
    47,
    NAME + 1,
    0x61000000_00000000,
    DIRECTORY + 24, // 47: depth 15
    44,
    49,
    50,
    NAME + 1,
    0x61000000_00000000,
    DIRECTORY + 24, // 50: depth 16
    47,
    52,
    53,
    NAME + 1,
    0x61000000_00000000,
    DIRECTORY + 24, // 53: depth 17
    50,
    0,
    0,
];

// What changes there as the directories at depths 1 and 17 change places.
pub const SWAPPED: [Change; 9] = [
    (7, 53),
    (11, 50),
    (12, 0),
    (13, 0),
    (17, 53),
    (103, 5),
    (107, 2),
    (108, 7),
    (109, 8),
];
