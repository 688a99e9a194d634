// How many bytes a window has.
ghost use Rattle.std.specs.Prelude.{◌≡◌, length};
ghost use Rattle.views.specs.Windows.{decimal, picture_size};

// How many digits a number has.
fn digits(n: u8) -> usize
    ensures { result ≡ length (decimal n) }
{
    if n < 10 {
        1
    } else if n < 100 {
        2
    } else {
        3
    }
}

// How many bytes a picture has.
pub(crate) fn picture_size(width: u8, height: u8) -> usize
    ensures { result ≡ picture_size width height }
{
    9 + digits(width) + digits(height) + 3 * (usize::from(width) * usize::from(height))
}
