// The writing side: text put into a lent buffer, piece by piece. Each piece says what stands behind the bytes already there, and that
// the writer still holds the same buffer, so that its owner knows it too.
ghost use Rattle.std.specs.Prelude.{◌≡◌, [], ◌∷◌, ◌+◌, ◌%◌, ◌≤◌, ◌<◌, length};
ghost use Rattle.text.specs.Numbers.{numeral};
ghost use Rattle.text.specs.working.Writing.{Appended};
ghost use Rattle.text.specs.working.Spelling.{Spelled};

// A lent buffer, and how many of its bytes are used.
#[derive(Drop)]
pub struct Writer<'a> {
    pub out: &'a mut [u8],
    pub used: usize,
}

impl<'a> Writer<'a> {
    pub fn put_byte(&mut self, byte: u8)
        requires { self.old.used < length self.old.out.now }
        ensures put { Appended self.old.out.now self.old.used (byte ∷ []) self.new.out.now self.new.used }
        ensures same { self.new.out.ghost_name ≡ self.old.out.ghost_name }
    {
        self.out[self.used] = byte;
        self.used += 1;
    }

    pub fn put_bytes(&mut self, bytes: &[u8])
        requires { self.old.used + length bytes.now ≤ length self.old.out.now }
        ensures put { Appended self.old.out.now self.old.used bytes.now self.new.out.now self.new.used }
        ensures same { self.new.out.ghost_name ≡ self.old.out.ghost_name }
    {
        let end = self.used + bytes.len();
        self.out[self.used..end].copy_from_slice(bytes);
        self.used = end;
    }

    // A number of 32 bits has ten digits at most.
    pub fn put_numeral(&mut self, number: u32)
        requires { self.old.used + 10 ≤ length self.old.out.now }
        ensures put { Appended self.old.out.now self.old.used (numeral number) self.new.out.now self.new.used }
        ensures same { self.new.out.ghost_name ≡ self.old.out.ghost_name }
    {
        let mut digits = [0; 10];
        let from = spell(number, &mut digits);
        self.put_bytes(&digits[from..]);
    }
}

fn digit(number: u32) -> u8
    ensures { result ≡ 48 + number % 10 }
{
    b'0' + (number % 10) as u8
}

// Fills the digits of a number from the back; they start at the place returned.
#[tactic(auto, using(crate::proofs::WritingLaws::spelling_start, crate::proofs::WritingLaws::ten_spelled))]
fn spell(number: u32, digits: &mut [u8; 10]) -> usize
    requires { length digits.old ≡ 10 }
    ensures { Spelled number digits.new result }
{
    let mut rest = number;
    for place in (0..10).rev() {
        digits[place] = digit(rest);
        if rest < 10 {
            return place;
        }
        rest /= 10;
    }
    0
}
