// Copies of as much as a buffer takes.
ghost use Rattle.std.specs.Prelude.{◌≡◌, length, min, take};

// Copies the front of a text to the front of a buffer, and answers how many bytes it has.
pub(crate) fn copy_front(text: &[u8], buf: &mut [u8]) -> usize
    ensures count { result ≡ min (length text.now) (length buf.old) }
    ensures front { take result buf.new ≡ take result text.now }
    ensures size { length buf.new ≡ length buf.old }
{
    let count = text.len().min(buf.len());
    buf[..count].copy_from_slice(&text[..count]);
    count
}
