// The output, gathered in a block, which is written when it is full and more comes, and at the end.
use arrayvec::ArrayVec;
use std::io;
use std::io::{Stdout, Write};

// The bytes of a block.
const BLOCK: usize = 8192;

#[derive(Drop)]
pub struct Output {
    block: ArrayVec<u8, BLOCK>,
    to: Stdout,
}

impl Output {
    pub fn new(to: Stdout) -> Output {
        Output {
            block: ArrayVec::new(),
            to,
        }
    }

    // Fills the block, and goes on with the next one, as often as it takes.
    #[cold]
    #[inline(never)]
    fn write_over(&mut self, bytes: &[u8]) -> io::Result<()> {
        let (first, rest) = bytes.split_at(self.block.remaining_capacity().min(bytes.len()));
        self.block.write_all(first)?;
        for part in rest.chunks(BLOCK) {
            self.flush()?;
            self.block.write_all(part)?;
        }
        Ok(())
    }
}

impl Write for Output {
    fn write(&mut self, bytes: &[u8]) -> io::Result<usize> {
        self.write_all(bytes)?;
        Ok(bytes.len())
    }

    fn flush(&mut self) -> io::Result<()> {
        self.to.write_all(&self.block)?;
        self.block.clear();
        Ok(())
    }

    // What there is room for is only copied.
    #[inline(always)]
    fn write_all(&mut self, bytes: &[u8]) -> io::Result<()> {
        if self.block.try_extend_from_slice(bytes).is_ok() {
            return Ok(());
        }
        self.write_over(bytes)
    }
}
