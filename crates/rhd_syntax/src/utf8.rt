//! Whether bytes are UTF-8.

ghost use Rattle.std.specs.Prelude.{◌≡◌, IsTrue};
ghost use Rattle.std.specs.Str.{IsAscii, is_utf8};

/// Whether all bytes are ASCII.
fn is_ascii(bytes: &[u8]) -> bool
    ensures { IsTrue result → IsAscii bytes.now }
{
    let mut most = 0u8;
    for b in bytes {
        most = most.max(*b);
    }
    most < 128
}

/// Whether bytes are UTF-8. Most texts are ASCII, and that is told sooner.
pub fn is_text(bytes: &[u8]) -> bool
    ensures { result ≡ is_utf8 bytes.now }
{
    if is_ascii(bytes) {
        return true;
    }
    str::from_utf8(bytes).is_ok()
}
