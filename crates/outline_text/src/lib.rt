// Text written into a lent buffer, from a place on.
#![tactic(auto)]

ghost use Rattle.std.specs.Prelude.{◌≡◌, ◌++◌};
ghost use Rattle.outline_text.specs.Text.{Room, Writes, decimal};

// A lent buffer, and the place after what is written into it.
#[derive(Drop)]
pub struct Page<'a> {
    pub text: &'a mut [u8],
    pub at: usize,
}

impl<'a> Page<'a> {
    // With nothing written yet.
    pub fn new(text: &'a mut [u8]) -> Page<'a>
        ensures same_text { result.text.ghost_name ≡ text.entry.ghost_name }
        ensures held { result.text.now ≡ text.old }
        ensures first { result.at ≡ 0 }
    {
        Page { text, at: 0 }
    }

    pub fn put(&mut self, bytes: &[u8])
        requires { Room bytes.now self.old }
        ensures { Writes bytes.now self.old self.new }
    {
        let next = self.at + bytes.len();
        self.text[self.at..next].copy_from_slice(bytes);
        self.at = next;
    }

    // A number in decimal: all digits but the last, and then the last.
    pub fn put_decimal(&mut self, n: u32)
        requires { Room (decimal n) self.old }
        ensures { Writes (decimal n) self.old self.new }
    {
        if n < 10 {
            return self.put(&[48 + n as u8]);
        }
        self.put_decimal(n / 10);
        self.put(&[48 + (n % 10) as u8]);
    }

    // Some text, and a number after it.
    pub fn put_field(&mut self, before: &[u8], n: u32)
        requires { Room (before.now ++ decimal n) self.old }
        ensures { Writes (before.now ++ decimal n) self.old self.new }
    {
        self.put(before);
        self.put_decimal(n);
    }
}
