// Bytes and whole numbers in decimal, written into lent bytes at a place; the place after them is given back.
// Interior: the caller sees to the room.
// Stays: a text and a place in it go along as two, since there is no heap: the text is the caller's fixed buffer, and `Written` says
// of one place and the next what stands between.

#![tactic(auto)]

ghost use Rattle.std.specs.Prelude.{◌≡◌, [], ◌∷◌, ◌+◌, ◌≤◌, ◌<◌, length};
ghost use Rattle.document.specs.Printing.{decimal};
ghost use Rattle.decimals.specs.Written.{Written};
ghost use Rattle.decimals.specs.Decimals.{last_digits};

// Ten to the power of it is the largest power of ten of 64 bits: a number that reaches it has one digit more, and no other has.
pub const SURE_DIGITS: usize = 19;

// How many digits a number of the machine can have.
pub const MOST_DIGITS: usize = SURE_DIGITS + 1;

// Bytes -----------------------------------------------------------------------------------------------------------------

// Writes one byte.
pub fn put_byte(text: &mut [u8], at: usize, b: u8) -> usize
    requires { at < length text.old }
    ensures { Written at 1 (b ∷ []) text.old text.new result }
{
    text[at] = b;
    at + 1
}

// Writes a word.
pub fn put_bytes(text: &mut [u8], at: usize, word: &[u8]) -> usize
    requires { at + length word.now ≤ length text.old }
    ensures { Written at (length word.now) word.now text.old text.new result }
{
    let end = at + word.len();
    text[at..end].copy_from_slice(word);
    end
}

// Numbers ---------------------------------------------------------------------------------------------------------------

// How many digits a number has: 0 has one.
pub fn digit_count(x: usize) -> usize
    ensures { result ≡ length (decimal x) }
{
    x.max(1).ilog10() as usize + 1
}

// Writes the last digits of a number, the very last first.
pub fn put_digits(text: &mut [u8], at: usize, count: usize, x: usize) -> usize
    requires { at + count ≤ length text.old }
    ensures { Written at count (last_digits count x) text.old text.new result }
{
    let end = at + count;
    let mut left = x;
    for p in (at..end).rev() {
        text[p] = b'0' + (left % 10) as u8;
        left /= 10;
    }
    end
}

// Writes a number in decimal.
pub fn put_decimal(text: &mut [u8], at: usize, x: usize) -> usize
    requires { at + length (decimal x) ≤ length text.old }
    ensures { Written at (length (decimal x)) (decimal x) text.old text.new result }
{
    let count = digit_count(x);
    put_digits(text, at, count, x)
}
