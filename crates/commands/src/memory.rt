// The memory that a canvas is given.

#[derive(Clone, Copy)]
pub enum Memory {
    // So many records for a sparse canvas.
    Records(usize),
    // So many bytes for a dense canvas, its width and its corner.
    Bytes {
        bytes: usize,
        width: i64,
        corner_x: i32,
        corner_y: i32,
    },
}
