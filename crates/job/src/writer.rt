// A lent buffer that is filled from its start on.
ghost use Rattle.std.specs.Prelude.{◌≡◌, ◌++◌, ◌+◌, ◌*◌, ◌≤◌, ◌∷◌, [], length};
ghost use Rattle.job.specs.Decimal.{decimal, integer};
ghost use Rattle.job.specs.Words.{word_bytes, bytes_of};
ghost use Rattle.job.specs.Writing.{Wrote, HasRoom};

// `at` bytes are written. Its methods promise what each writes, byte for byte: a `write!` to a writer of our own promises no bytes.
#[derive(Drop)]
pub struct Writer<'a> {
    pub out: &'a mut [u8],
    pub at: usize,
}

impl<'a> Writer<'a> {
    pub fn new(out: &'a mut [u8]) -> Writer<'a>
        ensures same { result.out.ghost_name ≡ out.entry.ghost_name }
        ensures empty { (result.out.now ≡ out.old) × (result.at ≡ 0) }
    {
        Writer { out, at: 0 }
    }

    // How many bytes are written.
    pub fn at(&self) -> usize
        ensures { result ≡ self.now.at }
    {
        self.at
    }

    #[tactic(auto, using(crate::proofs::Written::put_part, crate::proofs::Written::length_put))]
    pub fn text(&mut self, text: &[u8])
        requires { HasRoom self.old (length text.now) }
        ensures { Wrote self.old self.new text.now }
    {
        let end = self.at + text.len();
        let out = &mut *self.out;
        out[self.at..end].copy_from_slice(text);
        self.at = end;
    }

    fn byte(&mut self, byte: u8)
        requires { HasRoom self.old 1 }
        ensures { Wrote self.old self.new (byte ∷ []) }
    {
        self.text(&[byte]);
    }

    #[tactic(auto, using(crate::proofs::Bytes::le_word))]
    pub fn word(&mut self, w: u32)
        requires { HasRoom self.old 4 }
        ensures { Wrote self.old self.new (word_bytes w) }
    {
        self.text(&w.to_le_bytes());
    }

    pub fn words(&mut self, ws: &[u32])
        requires { HasRoom self.old (4 * length ws.now) }
        ensures { Wrote self.old self.new (bytes_of ws.now) }
    {
        for w in ws {
            self.word(*w);
        }
    }

    #[tactic(auto, using(crate::proofs::Decimals::length_small, crate::proofs::Decimals::length_more))]
    pub fn natural(&mut self, v: u64)
        requires { HasRoom self.old (length (decimal v)) }
        ensures { Wrote self.old self.new (decimal v) }
    {
        if v < 10 {
            self.byte(b'0' + v as u8);
        } else {
            self.natural(v / 10);
            self.byte(b'0' + (v % 10) as u8);
        }
    }

    // A text and a number.
    #[tactic(auto, using(crate::proofs::Writing::wrote_then))]
    pub fn field(&mut self, text: &[u8], v: u64)
        requires { HasRoom self.old (length (text.now ++ decimal v)) }
        ensures { Wrote self.old self.new (text.now ++ decimal v) }
    {
        self.text(text);
        self.natural(v);
    }

    #[tactic(auto, unfolding(crate::specs::Decimal::integer))]
    pub fn integer(&mut self, v: i32)
        requires { HasRoom self.old (length (integer v)) }
        ensures { Wrote self.old self.new (integer v) }
    {
        let size = v.unsigned_abs() as u64;
        if v < 0 {
            self.field(b"-", size);
        } else {
            self.natural(size);
        }
    }
}
