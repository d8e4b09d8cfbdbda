// Pieces of text: bytes, fixed strings and numbers, put at a place.
ghost use Rattle.std.specs.Prelude.{◌≡◌, ◌≤◌, length};
ghost use Rattle.text.specs.Pieces.{decimal};
ghost use Rattle.text.specs.Internal.{placed, put_byte, put_all};

// Puts a byte at a place and gives the place behind it. Behind the end of the buffer nothing is put.
pub fn put_byte(buffer: &mut [u8], at: usize, b: u8) -> usize
    ensures { placed result buffer.new ≡ put_byte b (placed at buffer.old) }
{
    if at < buffer.len() {
        buffer[at] = b;
        return at + 1;
    }
    at
}

// A fixed string.
pub fn put_fixed(buffer: &mut [u8], at: usize, string: &[u8]) -> usize
    ensures { placed result buffer.new ≡ put_all string.now (placed at buffer.old) }
{
    let mut i = at;
    for &b in string {
        i = put_byte(buffer, i, b);
    }
    i
}

// A number in decimal.
pub fn put_decimal(buffer: &mut [u8], at: usize, n: u32) -> usize
    ensures { placed result buffer.new ≡ put_all (decimal n) (placed at buffer.old) }
{
    if n < 10 {
        return put_byte(buffer, at, (n % 10) as u8 + 48);
    }
    let i = put_decimal(buffer, at, n / 10);
    put_byte(buffer, i, (n % 10) as u8 + 48)
}

// The length of a number in decimal, with a bound by which no sum of such lengths overflows.
pub fn decimal_length(n: u32) -> usize
    ensures exact { result ≡ length (decimal n) }
    ensures few { result ≤ 10 }
{
    let mut x = n;
    let mut digits = 1;
    while 10 <= x {
        x = x / 10;
        digits += 1;
    }
    digits
}
