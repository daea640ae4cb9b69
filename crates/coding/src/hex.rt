// Bytes as text: a space and two hexadecimal digits each.
ghost use Rattle.std.specs.Prelude.{◌≡◌, ◌+◌, ◌*◌, ◌<◌, ◌≤◌, length};
ghost use Rattle.std.proofs.lemmas.List.Edits.{sets};
ghost use Rattle.coding.specs.Hex.{hex_digit, byte_text, bytes_text};

// The digit for a number below 16.
fn digit(d: u8) -> u8
    requires { d < 16 }
    ensures { result ≡ hex_digit d }
{
    if d < 10 { 48 + d } else { 55 + d }
}

// Writes a space and the two digits of a byte, the higher first.
fn put_byte(out: &mut [u8], at: usize, b: u8)
    requires { at + 3 ≤ length out.old }
    ensures { out.new ≡ sets out.old at (byte_text b) }
{
    out[at] = b' ';
    out[at + 1] = digit(b / 16);
    out[at + 2] = digit(b % 16);
}

// Writes all bytes so, one behind the other, from the front on.
pub fn put_bytes(out: &mut [u8], bytes: &[u8])
    requires { 3 * length bytes.now ≤ length out.old }
    ensures { out.new ≡ sets out.old 0 (bytes_text bytes.now) }
{
    for (i, &b) in bytes.iter().enumerate() {
        put_byte(out, 3 * i, b);
    }
}
