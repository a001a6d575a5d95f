// How bytes are moved between an object in memory and a buffer.
ghost use Rattle.std.specs.Prelude.{◌≡◌, ◌+◌, ◌-◌, ◌≤◌, ◌++◌, length, take, drop};
ghost use Rattle.kt_outside.specs.Memory.{moved};

/// The bytes from a place on, none where the place is past the end.
pub(crate) fn rest_of(bytes: &[u8], at: usize) -> &[u8]
    ensures { result.now ≡ drop at bytes.now }
{
    if at < bytes.len() { &bytes[at..] } else { &[] }
}

/// Copies the first bytes to the front of a buffer, as many as a call moves.
pub(crate) fn give(piece: usize, bytes: &[u8], buf: &mut [u8]) -> usize
    ensures count { result ≡ moved piece (length buf.old) (length bytes.now) }
    ensures copied { take result buf.new ≡ take result bytes.now }
    ensures rest { drop result buf.new ≡ drop result buf.old }
{
    let count = piece.min(buf.len()).min(bytes.len());
    buf[..count].copy_from_slice(&bytes[..count]);
    count
}

/// Copies the first bytes to those from a place on, as many as a call moves.
pub(crate) fn append(piece: usize, bytes: &[u8], held: &mut [u8], at: usize) -> usize
    requires { at ≤ length held.old }
    ensures count { result ≡ moved piece (length bytes.now) (length held.old - at) }
    ensures copied { take (at + result) held.new ≡ take at held.old ++ take result bytes.now }
{
    give(piece, bytes, &mut held[at..])
}
