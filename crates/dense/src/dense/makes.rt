// Dense canvases are made over lent bytes.
ghost use Rattle.std.specs.Prelude.{◌≡◌, ◌<◌, ◌≤◌, length};
ghost use Rattle.dense.specs.Area.{size};
ghost use Rattle.dense.specs.Dense.{dense_board};
ghost use Rattle.dense.specs.Making.{area_of, empty_board, rows_of, side_of, zeroed};

use super::super::area::Area;
use super::DenseCanvas;

// The width that counts: one below 1 counts as 1, and one above 128 as 128.
fn side(width: i64) -> u16
    ensures { result ≡ side_of width }
{
    width.clamp(1, 128) as u16
}

// As many rows of that width as the bytes fill, at most 128.
fn rows(bytes: usize, width: u16) -> u16
    requires { 0 < width }
    ensures { result ≡ rows_of bytes width }
{
    (bytes / usize::from(width)).min(128) as u16
}

// Sets the first `count` bytes to 0.
pub(crate) fn wipe(bytes: &mut [u8], count: usize)
    requires { count ≤ length bytes.old }
    ensures { bytes.new ≡ zeroed count bytes.old }
{
    bytes[..count].fill(0);
}

impl<'a> DenseCanvas<'a> {
    // An empty canvas over the caller's bytes, of a width and with the corner (`corner_x`, `corner_y`). The bytes of its cells become 0.
    pub fn over(bytes: &'a mut [u8], width: i64, corner_x: i32, corner_y: i32) -> DenseCanvas<'a>
        ensures board { dense_board result ≡ empty_board (area_of corner_x corner_y width (length bytes.old)) }
        ensures bytes { result.bytes.now ≡ zeroed (size (area_of corner_x corner_y width (length bytes.old))) bytes.old }
    {
        let wide = side(width);
        let area = Area {
            x: corner_x,
            y: corner_y,
            width: wide,
            height: rows(bytes.len(), wide),
        };
        wipe(bytes, area.size());
        DenseCanvas {
            bytes,
            area,
            held: 0,
        }
    }
}
