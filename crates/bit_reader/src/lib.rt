// A reader of a file's bits: the bytes and a place among their bits. Each function is thin: the reading itself is `bits::read_field`.
#![tactic(auto)]

ghost use Rattle.std.specs.Prelude.{◌≡◌, ◌+◌, ◌≤◌, ◌<◌, ◌^◌};
ghost use Rattle.model.specs.Bits.{field};
ghost use Rattle.bit_reader.specs.Readers.{reader_at, next_field, past};

#[derive(Drop)]
pub struct Reader<'a> {
    bytes: &'a [u8],
    at: usize,
}

impl<'a> Reader<'a> {
    // A reader of the bytes, before bit `at`.
    pub fn new(bytes: &'a [u8], at: usize) -> Reader<'a>
        ensures { result ≡ reader_at bytes.entry at }
    {
        Reader { bytes, at }
    }

    // The number in the next `width` bits, most significant first; the reader is past them afterwards.
    pub fn next(&mut self, width: usize) -> u64
        requires { (width ≤ 64) × (self.old.at + width < 2 ^ 64) }
        ensures { (result ≡ next_field self.old width) × (result < 2 ^ width) × (self.new ≡ past self.old width) }
    {
        let at = self.at;
        self.at = at + width;
        bits::read_field(self.bytes, at, width)
    }

    // The bit that is next.
    pub fn position(self) -> usize
        ensures { result ≡ self.entry.at }
    {
        self.at
    }

    // The bytes, handed back.
    pub fn slice(self) -> &'a [u8]
        ensures { result ≡ self.entry.bytes }
    {
        self.bytes
    }
}

// Two fields in a row.
#[derive(Clone, Copy)]
pub struct Pair {
    pub first: u64,
    pub second: u64,
}

impl Pair {
    // The fields of `first` and of `second` bits from bit `at` on. A caller of this has no reader of its own.
    pub fn read(bytes: &[u8], at: usize, first: usize, second: usize) -> Self
        requires { (first ≤ 64) × (second ≤ 64) × (at + first + second < 2 ^ 64) }
        ensures { (result.first ≡ field bytes.now at first) × (result.second ≡ field bytes.now (at + first) second) × (result.first < 2 ^ first) × (result.second < 2 ^ second) }
    {
        let mut reader = Reader::new(bytes, at);
        Pair {
            first: reader.next(first),
            second: reader.next(second),
        }
    }
}
