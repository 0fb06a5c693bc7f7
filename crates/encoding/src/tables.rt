// The table of classes and the rows of UTF-8, as numbers.
// The class of every byte, in the order of the bytes: 1 opening bracket, 2 closing, 3 colon, 4 comma, 5 quote,
// 6 backslash, 7 blank, 0 all others.
pub static CLASSES: [u8; 256] = [
    // from 00
    0, 0, 0, 0, 0, 0, 0, 0, 0, 7, // tab
    7, // line feed
    0, 0, 7, // carriage return
    0, 0,
    // from 10
    0, 0, 0, 0, 0, 0, 0, 0, 0, 0, 0, 0, 0, 0, 0, 0,
    // from 20
    7, // space
    0, 5, // quote
    0, 0, 0, 0, 0, 0, 0, 0, 0, 4, // comma
    0, 0, 0,
    // from 30
    0, 0, 0, 0, 0, 0, 0, 0, 0, 0, 3, // colon
    0, 0, 0, 0, 0,
    // from 40
    0, 0, 0, 0, 0, 0, 0, 0, 0, 0, 0, 0, 0, 0, 0, 0,
    // from 50
    0, 0, 0, 0, 0, 0, 0, 0, 0, 0, 0, 1, // [
    6, // backslash
    2, // ]
    0, 0,
    // from 60
    0, 0, 0, 0, 0, 0, 0, 0, 0, 0, 0, 0, 0, 0, 0, 0,
    // from 70
    0, 0, 0, 0, 0, 0, 0, 0, 0, 0, 0, 1, // {
    0, 2, // }
    0, 0,
    // from 80
    0, 0, 0, 0, 0, 0, 0, 0, 0, 0, 0, 0, 0, 0, 0, 0,
    // from 90
    0, 0, 0, 0, 0, 0, 0, 0, 0, 0, 0, 0, 0, 0, 0, 0,
    // from A0
    0, 0, 0, 0, 0, 0, 0, 0, 0, 0, 0, 0, 0, 0, 0, 0,
    // from B0
    0, 0, 0, 0, 0, 0, 0, 0, 0, 0, 0, 0, 0, 0, 0, 0,
    // from C0
    0, 0, 0, 0, 0, 0, 0, 0, 0, 0, 0, 0, 0, 0, 0, 0,
    // from D0
    0, 0, 0, 0, 0, 0, 0, 0, 0, 0, 0, 0, 0, 0, 0, 0,
    // from E0
    0, 0, 0, 0, 0, 0, 0, 0, 0, 0, 0, 0, 0, 0, 0, 0,
    // from F0
    0, 0, 0, 0, 0, 0, 0, 0, 0, 0, 0, 0, 0, 0, 0, 0,
];

// A row of UTF-8: the bounds of the first byte, those of the second (0 where there is none), and how many bytes a code point of the row has.
// Each byte after the second is from 80 to BF.
#[derive(Clone, Copy)]
pub struct Row {
    pub low: u8,
    pub high: u8,
    pub second_low: u8,
    pub second_high: u8,
    pub bytes: u8,
}

// The nine rows, in the order of their first bytes.
pub static ROWS: [Row; 9] = [
    Row {
        low: 0x00,
        high: 0x7F,
        second_low: 0x00,
        second_high: 0x00,
        bytes: 1,
    },
    Row {
        low: 0xC2,
        high: 0xDF,
        second_low: 0x80,
        second_high: 0xBF,
        bytes: 2,
    },
    Row {
        low: 0xE0,
        high: 0xE0,
        second_low: 0xA0,
        second_high: 0xBF,
        bytes: 3,
    },
    Row {
        low: 0xE1,
        high: 0xEC,
        second_low: 0x80,
        second_high: 0xBF,
        bytes: 3,
    },
    Row {
        low: 0xED,
        high: 0xED,
        second_low: 0x80,
        second_high: 0x9F,
        bytes: 3,
    },
    Row {
        low: 0xEE,
        high: 0xEF,
        second_low: 0x80,
        second_high: 0xBF,
        bytes: 3,
    },
    Row {
        low: 0xF0,
        high: 0xF0,
        second_low: 0x90,
        second_high: 0xBF,
        bytes: 4,
    },
    Row {
        low: 0xF1,
        high: 0xF3,
        second_low: 0x80,
        second_high: 0xBF,
        bytes: 4,
    },
    Row {
        low: 0xF4,
        high: 0xF4,
        second_low: 0x80,
        second_high: 0x8F,
        bytes: 4,
    },
];
