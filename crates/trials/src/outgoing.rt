// The output that waits to be written, in which each answer is put behind those before it.

// The bytes of the output: many, for much data.
const BUFFER: usize = 65536;

// The output, and how many of its bytes wait to be written.
#[derive(Drop)]
pub(crate) struct Outgoing {
    bytes: [u8; BUFFER],
    len: usize,
}

impl Outgoing {
    // An output in which nothing waits.
    pub(crate) fn empty() -> Outgoing {
        Outgoing {
            bytes: [0; BUFFER],
            len: 0,
        }
    }

    // The bytes that wait.
    pub(crate) fn waiting(&self) -> &[u8] {
        &self.bytes[..self.len.min(BUFFER)]
    }

    // How many more bytes can be put.
    pub(crate) fn left(&self) -> usize {
        BUFFER.saturating_sub(self.len)
    }

    // Takes out what waits.
    pub(crate) fn clear(&mut self) {
        self.len = 0;
    }

    // Puts a text behind what waits, as much as fits.
    pub(crate) fn put(&mut self, text: &[u8]) {
        self.len = room::put(&mut self.bytes, self.len, text);
    }

    // Puts the decimal spelling of a number.
    pub(crate) fn put_decimal(&mut self, n: u64) {
        self.len = output::put_decimal(&mut self.bytes, self.len, n);
    }

    // Puts a number after a space.
    pub(crate) fn put_number(&mut self, n: u64) {
        self.put(b" ");
        self.put_decimal(n);
    }
}
