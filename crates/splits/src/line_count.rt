ghost use Rattle.std.specs.Prelude.{◌≡◌, ◌≤◌, length};
ghost use Rattle.peg_text.specs.Records.{cut_of};

/// How many bytes a chunk has: few enough for a count in one byte.
const CHUNK: usize = 192;

/// How many lines end in a chunk.
fn lines_of_chunk(chunk: &[u8]) -> u8
    requires { length chunk.now ≤ 255 }
    ensures { result ≡ length (cut_of chunk.now).whole }
{
    let mut lines = 0;
    for byte in chunk {
        lines += u8::from(*byte == b'\n');
    }
    lines
}

/// How many lines end in these bytes. A sum of one byte adds up many bytes at once, where that of 64 bits in
/// `memchr_iter(..).count()` takes several times as long.
pub fn count_lines(bytes: &[u8]) -> u64
    ensures lines { result ≡ length (cut_of bytes.now).whole }
    ensures few { result ≤ length bytes.now }
{
    let mut lines = 0;
    for chunk in bytes.chunks(CHUNK) {
        lines += u64::from(lines_of_chunk(chunk));
    }
    lines
}
