// The tags of a book's fields, then those of a report that a book has not, under the document's letters.
pub const D: u8 = b'D';

pub const X: u8 = b'X';

pub const S: u8 = b'S';

pub const L: u8 = b'L';

pub const U: u8 = b'U';

pub const V: u8 = b'V';

pub const C: u8 = b'C';

pub const I: u8 = b'I';

pub const K: u8 = b'K';

pub const H: u8 = b'H';

pub const Q: u8 = b'Q';

pub const B: u8 = b'B';

pub const A: u8 = b'A';

pub const Z: u8 = b'Z';

pub const T: u8 = b'T';

pub const R: u8 = b'R';

pub const E: u8 = b'E';

pub const O: u8 = b'O';

pub const J: u8 = b'J';
