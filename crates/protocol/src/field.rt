// The fields of a line.
ghost use Rattle.std.specs.Prelude.{◌≡◌, ◌+◌, ◌≤◌, length, take};
ghost use Rattle.std.specs.Str.Parse.{digits_value};
ghost use Rattle.protocol.specs.Fields.{most_digits, Counts, TakesNumber, TakesOneField, ReadsFields};
ghost use Rattle.protocol.specs.declared.fault.Fault.TheVariants.{WrongForm};

use crate::fault::Fault;

// Reads the fields of a line one by one.
#[derive(Drop)]
struct Cursor<'a> {
    // what is not read yet
    rest: &'a [u8],
    // the place in the line where the rest begins, from 1
    place: u8,
    ghost inside: { place + length rest.now ≤ 33 },
}

impl Cursor<'_> {
    // The fault where the rest begins.
    fn wrong_form(&self) -> Fault
        ensures { result ≡ WrongForm self.now.place }
    {
        Fault::WrongForm { place: self.place }
    }

    // Takes the digits of a field from the front of the rest.
    fn take_number(&mut self) -> Result<u32, Fault>
        ensures { TakesNumber self.old.rest.now self.old.place result
            self.new.rest.now self.new.place }
    {
        let (count, number) = leading_number(self.rest);
        if count == 0 {
            return Err(self.wrong_form());
        }
        self.rest = &self.rest[count..];
        self.place += count as u8;
        Ok(number)
    }

    // Takes a field from the front of the rest: a space, and digits.
    fn take_field(&mut self) -> Result<u32, Fault>
        ensures { TakesOneField self.old.rest.now self.old.place result
            self.new.rest.now self.new.place }
    {
        match self.rest {
            [b' ', rest @ ..] => {
                self.rest = rest;
                self.place += 1;
                self.take_number()
            }
            _ => Err(self.wrong_form()),
        }
    }
}

// The most digits of a field.
const MOST_DIGITS: usize = 6;

// The most digits that a field has at the front of a text: a leading 0 stands alone.
fn most_digits(text: &[u8]) -> usize
    ensures { result ≡ most_digits text.now }
{
    match text {
        [b'0', ..] => 1,
        _ => MOST_DIGITS,
    }
}

// The field at the front of a text: how many digits it has, and the number that they write. It has
// none where no field begins.
fn leading_number(text: &[u8]) -> (usize, u32)
    ensures counted { Counts text.now result.0 }
    ensures value { result.1 ≡ digits_value 10 (take result.0 text.now) }
{
    let most = most_digits(text).min(text.len());
    let mut number = 0;
    for count in 0..most {
        let byte = text[count];
        if !byte.is_ascii_digit() {
            return (count, number);
        }
        number = number * 10 + u32::from(byte - b'0');
    }
    (most, number)
}

// Reads N fields, which stand from the second place of the line to its end.
#[inline(always)]
pub(crate) fn read_numbers<const N: usize>(text: &[u8]) -> Result<[u32; N], Fault>
    requires { length text.now ≤ 31 }
    ensures { ReadsFields N text.now result }
{
    let mut cursor = Cursor {
        rest: text,
        place: 2,
    };
    let mut numbers = [0; N];
    for number in &mut numbers {
        *number = cursor.take_field()?;
    }
    match cursor.rest {
        [] => Ok(numbers),
        [_, ..] => Err(cursor.wrong_form()),
    }
}
