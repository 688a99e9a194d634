// What the tests lend to canvases and windows.
use sparse::record::CellRecord;

// A record of a table.
pub const BLANK: CellRecord = CellRecord { x: 0, y: 0, ink: 0 };

// A palette in which the bytes of an ink are its digit, and one byte more.
pub const PALETTE: &[u8; 49] = b"000111222333444555666777888999aaabbbcccdddeeefff+";
