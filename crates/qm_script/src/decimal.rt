//! Short texts that are written from their end to their front, with numbers in decimal digits.
//!
//! A formatter goes by a width, a sign and a fill for each number, and takes what stands before it apart: that is half as
//! much again as the digits take. A number's last digit is known first. So what stands behind a number is written before it,
//! and all of it is copied at once.

ghost use Rattle.std.specs.Prelude.{◌≡◌, ◌+◌, ◌/◌, ◌%◌, ◌<◌, ◌≤◌, ◌∷◌, ◌++◌, [], drop};
ghost use Rattle.std.specs.Fmt.{decimal};
ghost use Rattle.qm_script.specs.declared.decimal.TheConstants.{ROOM};

/// What such a text has at most: two numbers of 20 digits, a byte before each, and a sign.
const ROOM: usize = 43;

// The two digits of each number below 100.
static PAIRS: [u8; 200] = *b"0001020304050607080910111213141516171819\
2021222324252627282930313233343536373839\
4041424344454647484950515253545556575859\
6061626364656667686970717273747576777879\
8081828384858687888990919293949596979899";

/// A text that is written from its end to its front.
#[derive(Drop)]
pub(crate) struct Backwards {
    text: [u8; ROOM],
    // where what is written begins
    from: usize,
    ghost within: { from ≤ ROOM },
}

impl Backwards {
    ghost use Rattle.qm_script.specs.Backwards.{room_in, written_in};

    /// A text of which nothing is written.
    #[inline]
    pub(crate) fn new() -> Backwards
        ensures written { written_in result ≡ [] }
        ensures room { room_in result ≡ ROOM }
    {
        Backwards {
            text: [0; ROOM],
            from: ROOM,
        }
    }

    /// Writes a byte before what stands there.
    #[inline]
    pub(crate) fn put_byte(&mut self, byte: u8)
        requires room { 1 ≤ room_in self.old }
        ensures written { written_in self.new ≡ byte ∷ written_in self.old }
        ensures room { room_in self.new + 1 ≡ room_in self.old }
    {
        self.from -= 1;
        self.text[self.from] = byte;
    }

    /// Writes a number's digits before what stands there.
    #[inline]
    pub(crate) fn put_number(&mut self, number: u64)
        requires room { 20 ≤ room_in self.old }
        ensures written { written_in self.new ≡ decimal number ++ written_in self.old }
        ensures room { room_in self.old ≤ room_in self.new + 20 }
    {
        self.from = write_digits(&mut self.text, self.from, number);
    }

    /// What is written.
    #[inline]
    pub(crate) fn written(&self) -> &[u8]
        ensures { result.now ≡ written_in self.now }
    {
        &self.text[self.from..]
    }
}

// Writes a number's digits up to a place of the text, and answers where they begin.
fn write_digits(text: &mut [u8; ROOM], end: usize, number: u64) -> usize
    requires end { end ≤ ROOM }
    requires room { 20 ≤ end }
    ensures within { result ≤ end }
    ensures room { end ≤ result + 20 }
    ensures digits { drop result text.new ≡ decimal number ++ drop end text.old }
{
    let mut left = number;
    let mut from = end;
    // the number's digits are those of what is left, and behind these what stands from here on
    while left >= 100 {
        from -= 2;
        write_pair(text, from, (left % 100) as u8);
        left /= 100;
    }
    if left >= 10 {
        from -= 2;
        write_pair(text, from, left as u8);
    } else {
        from -= 1;
        text[from] = b'0' + left as u8;
    }
    from
}

// Writes the two digits of a number below 100 from a place on.
fn write_pair(text: &mut [u8; ROOM], from: usize, number: u8)
    requires below { number < 100 }
    requires room { from + 2 ≤ ROOM }
    ensures { drop from text.new ≡ (48 + number / 10) ∷ (48 + number % 10) ∷ drop (from + 2) text.old }
{
    let place = 2 * number as usize;
    let (tens, ones) = (PAIRS[place], PAIRS[place + 1]);
    text[from] = tens;
    text[from + 1] = ones;
}
