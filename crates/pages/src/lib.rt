// The text of an answer, put piece by piece on a page. What has no room makes the page full, and full it stays.
#![tactic(auto)]

ghost use Rattle.std.specs.Prelude.{◌≡◌, replicate};
ghost use Rattle.wire.specs.Text.{decimal};
ghost use Rattle.pages.specs.Pages.{Puts};

// A text: the first `end` of the bytes. One past the last byte says that the page is full.
#[derive(Drop)]
pub struct Page {
    pub bytes: [u8; 1048576],
    pub end: usize,
}

impl Page {
    // A page without text.
    pub fn new() -> Page
        ensures bytes { result.bytes ≡ replicate 1048576 0 }
        ensures end { result.end ≡ 0 }
    {
        Page {
            bytes: [0; 1048576],
            end: 0,
        }
    }

    // Puts bytes behind the text.
    pub fn put(&mut self, bytes: &[u8])
        ensures { Puts self.old self.new bytes.now }
    {
        if self.end > 1048576 || bytes.len() > 1048576 - self.end {
            self.end = 1048577;
            return;
        }
        slices::copy(bytes, &mut self.bytes[self.end..]);
        self.end += bytes.len();
    }

    // Puts a number in decimal.
    pub fn put_number(&mut self, n: u64)
        ensures { Puts self.old self.new (decimal n) }
    {
        let mut digits = [0; 20];
        let k = io::decimal(n, &mut digits);
        self.put(&digits[..k]);
    }
}
