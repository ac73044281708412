// The form of a line.
ghost use Rattle.std.specs.Prelude.{◌≤◌, ◌∷◌, length};
ghost use Rattle.protocol.specs.Reading.{Reading};

use crate::fault::Fault;
use crate::field::read_numbers;
use model::call::Call;

/// The most bytes that a line may have, its byte 10 not counted.
pub const LONGEST_LINE: usize = 32;

/// Reads a line, without its byte 10, as a call. A line that is no call's is a fault: too long, begins
/// with no call letter, or has a wrong form.
#[inline(always)]
pub fn read_call(line: &[u8]) -> Result<Call, Fault>
    ensures { Reading line.now result }
{
    if line.len() > LONGEST_LINE {
        return Err(Fault::TooLong);
    }
    match line {
        [letter, fields @ ..] => read_fields(*letter as char, fields),
        [] => Err(Fault::NoLetter),
    }
}

// Reads the fields behind a letter. The letter chooses the call.
#[inline(always)]
fn read_fields(letter: char, fields: &[u8]) -> Result<Call, Fault>
    requires { length fields.now ≤ 31 }
    ensures { Reading (letter ∷ fields.now) result }
{
    match letter {
        'O' => {
            let [dispatch, weight] = read_numbers::<2>(fields)?;
            Ok(Call::Open { dispatch, weight })
        }
        'C' => {
            let [dispatch, section, mode] = read_numbers::<3>(fields)?;
            Ok(Call::Claim {
                dispatch,
                section,
                mode,
            })
        }
        'E' => {
            let [dispatch] = read_numbers::<1>(fields)?;
            Ok(Call::Close { dispatch })
        }
        'W' => {
            let [dispatch] = read_numbers::<1>(fields)?;
            Ok(Call::Withdraw { dispatch })
        }
        'A' => {
            let [dispatch] = read_numbers::<1>(fields)?;
            Ok(Call::Acknowledge { dispatch })
        }
        'S' => {
            let [] = read_numbers::<0>(fields)?;
            Ok(Call::Sweep)
        }
        _ => Err(Fault::NoLetter),
    }
}
