// Writing bytes over the first ones of an output.
ghost use Rattle.std.specs.Prelude.{◌≡◌, ◌≤◌, length};
ghost use Rattle.views.specs.Windows.{decimal, header, written_over};

// Writes bytes, and answers how many.
fn put(output: &mut [u8], bytes: &[u8]) -> usize
    requires { length bytes.now ≤ length output.old }
    ensures count { result ≡ length bytes.now }
    ensures output { output.new ≡ written_over bytes.now output.old }
{
    output[..bytes.len()].copy_from_slice(bytes);
    bytes.len()
}

// Writes the digits of a number.
fn put_decimal(output: &mut [u8], n: u8) -> usize
    requires { length (decimal n) ≤ length output.old }
    ensures count { result ≡ length (decimal n) }
    ensures output { output.new ≡ written_over (decimal n) output.old }
{
    if n < 10 {
        return put(output, &[b'0' + n]);
    }
    if n < 100 {
        return put(output, &[b'0' + n / 10, b'0' + n % 10]);
    }
    put(output, &[b'0' + n / 100, b'0' + n / 10 % 10, b'0' + n % 10])
}

// Writes what stands before the pixels.
pub(crate) fn put_header(output: &mut [u8], width: u8, height: u8) -> usize
    requires { length (header width height) ≤ length output.old }
    ensures count { result ≡ length (header width height) }
    ensures output { output.new ≡ written_over (header width height) output.old }
{
    let mut at = put(output, b"P6\n");
    at += put_decimal(&mut output[at..], width);
    at += put(&mut output[at..], b" ");
    at += put_decimal(&mut output[at..], height);
    at + put(&mut output[at..], b"\n255\n")
}
