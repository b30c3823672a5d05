// A buffer of the program: what a record brought stands at its start, and is lent to the calls.
ghost use Rattle.std.specs.Prelude.{◌<◌, ◌≤◌, ◌≡◌, leb, false, length, take, drop};

// N bytes, of which the first `len` are lent.
#[derive(Drop)]
pub struct Buffer<const N: usize> {
    bytes: [u8; N],
    len: usize,
    ghost fits: { len ≤ N },
}

impl<const N: usize> Buffer<N> {
    pub fn empty() -> Buffer<N>
        ensures { result.len ≡ 0 }
    {
        Buffer {
            bytes: [0; N],
            len: 0,
        }
    }

    // What is lent.
    pub fn lent(&self) -> &[u8]
        ensures { result.now ≡ take self.now.len self.now.bytes }
    {
        &self.bytes[..self.len]
    }

    // The same, for a call that changes it.
    pub fn lent_mut(&mut self) -> &mut [u8]
        ensures { result.now ≡ take self.old.len self.old.bytes }
    {
        let n = self.len;
        let bytes = &mut self.bytes;
        let all = &mut bytes[..];
        &mut all[..n]
    }

    // Whether so many bytes have room.
    pub fn holds(&self, n: usize) -> bool
        ensures { result ≡ leb n N }
    {
        n <= N
    }

    // Takes so many bytes of the input. False where the buffer is too short, and then nothing is read, or the input ends
    // before.
    pub fn read(&mut self, n: usize) -> bool
        ensures short { N < n → (result ≡ false) × (self.new ≡ self.old) }
        ensures taken { n ≤ N → self.new.len ≡ n }
        ensures behind { drop n self.new.bytes ≡ drop n self.old.bytes }
    {
        if N < n {
            return false;
        }
        self.len = n;
        fill(&mut self.bytes, n)
    }
}

// Reads so many bytes to the start of a buffer. False where the input ends before. What they are is
// the input's; those behind them stay.
fn fill(buffer: &mut [u8], n: usize) -> bool
    requires { n ≤ length buffer.old }
    ensures { drop n buffer.new ≡ drop n buffer.old }
{
    let got = io::read_full(0, &mut buffer[..n]);
    got == n
}
