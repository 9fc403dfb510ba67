// Putting bytes into a lent buffer: whole where there is room, and nothing at all where there is none.
ghost use Rattle.std.specs.Prelude.{◌≡◌, ◌+◌, leb};
ghost use Rattle.fields.specs.Put.{put, put_end};

// Whether k bytes fit from a place on.
pub(crate) fn has_room(len: usize, at: usize, k: usize) -> bool
    ensures { result ≡ leb (at + k) len }
{
    if len < at {
        return false;
    }
    k <= len - at
}

// Puts all bytes of a slice; the answer is the place after them, and by `put_end` the place itself where nothing is put.
pub fn put_part(buf: &mut [u8], at: usize, from: &[u8]) -> usize
    ensures { (result ≡ put_end buf.old at from.now) × (buf.new ≡ put buf.old at from.now) }
{
    if !has_room(buf.len(), at, from.len()) {
        return at;
    }
    let end = at + from.len();
    buf[at..end].copy_from_slice(from);
    end
}
