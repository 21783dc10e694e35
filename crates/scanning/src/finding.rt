// The place of a byte.
ghost use Rattle.std.specs.Prelude.{◌≤◌, ◌<◌, length, IfSome, unwrap_or};
ghost use Rattle.scanning.specs.Found.{Found};

// The first place from a position on that holds the byte.
pub fn find(bytes: &[u8], from: usize, byte: u8) -> Option<usize>
    requires { from ≤ length bytes.now }
    ensures found { Found byte bytes.now from (unwrap_or result (length bytes.now)) }
    ensures inside { IfSome result (λ at. at < length bytes.now) }
{
    let ahead = bytes[from..].iter().position(|b| *b == byte)?;
    Some(from + ahead)
}
