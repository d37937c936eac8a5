// A writer of a file's bits, lent bytes and a place among their bits, and fields put in a row by it. Each function is thin: the writing itself is `bits::put_field`.
#![tactic(auto)]

ghost use Rattle.std.specs.Prelude.{◌≡◌, ◌++◌, ◌+◌, ◌*◌, ◌≤◌, ◌<◌, ◌^◌, length};
ghost use Rattle.model.specs.Bits.{bits};
ghost use Rattle.bits.specs.Puts.{bits_put};
ghost use Rattle.bit_writer.specs.Writers.{writer_at, past, fields_bits, FieldsFit};

#[derive(Drop)]
pub struct Writer<'a> {
    bytes: &'a mut [u8],
    at: usize,
}

impl<'a> Writer<'a> {
    // A writer of the bytes, before bit `at`.
    pub fn new(bytes: &'a mut [u8], at: usize) -> Writer<'a>
        ensures { result ≡ writer_at bytes.entry at }
    {
        Writer { bytes, at }
    }

    // Puts the number in the next `width` bits, most significant first; the writer is past them afterwards.
    pub fn put(&mut self, width: usize, number: u64)
        requires { (width ≤ 64) × (self.old.at + width < 2 ^ 64) × (self.old.at + width ≤ 8 * length self.old.bytes.now) }
        ensures { self.new ≡ past self.old width number }
    {
        let at = self.at;
        bits::put_field(&mut *self.bytes, at, width, number);
        self.at = at + width;
    }

    // The bit that is next. The bytes are as they were.
    pub fn position(self) -> usize
        ensures { (result ≡ self.entry.at) × (self.exit.0.now ≡ self.entry.bytes.now) }
    {
        self.at
    }
}

// Fields in a row, each a width and a number, the first from bit `at` on.
pub fn put_fields(out: &mut [u8], at: usize, fields: &[(usize, u64)])
    requires { FieldsFit at fields.now out.old }
    ensures { out.new ≡ bits_put out.old at (fields_bits fields.now) }
{
    let mut writer = Writer::new(out, at);
    for field in fields {
        let (width, number) = *field;
        writer.put(width, number);
    }
}

// Two fields in a row, the first from bit `at` on.
// This and `put_four` stay beside `put_fields`, since they may not change: they are public, docs/ARCHITECTURE.md names them, and their clauses with their edits stay.
pub fn put_two(out: &mut [u8], at: usize, first: usize, one: u64, second: usize, two: u64)
    requires { (first ≤ 64) × (second ≤ 64) × (at + first + second < 2 ^ 64) × (at + first + second ≤ 8 * length out.old) }
    ensures { out.new ≡ bits_put out.old at (bits first one ++ bits second two) }
{
    put_fields(out, at, &[(first, one), (second, two)]);
}

// Four fields in a row, the first from bit `at` on.
pub fn put_four(
    out: &mut [u8],
    at: usize,
    first: usize,
    one: u64,
    second: usize,
    two: u64,
    third: usize,
    three: u64,
    fourth: usize,
    four: u64,
)
    requires { (first ≤ 64) × (second ≤ 64) × (third ≤ 64) × (fourth ≤ 64) × (at + first + second + third + fourth < 2 ^ 64) × (at + first + second + third + fourth ≤ 8 * length out.old) }
    ensures { out.new ≡ bits_put out.old at (bits first one ++ bits second two ++ bits third three ++ bits fourth four) }
{
    put_fields(
        out,
        at,
        &[(first, one), (second, two), (third, three), (fourth, four)],
    );
}
