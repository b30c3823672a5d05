// What the program prints. Each function stops at the first write that fails.
ghost use Rattle.std.specs.Prelude.{◌≡◌};
ghost use Rattle.model.specs.Answers.{numbers_of};
ghost use Rattle.cases.specs.Leaves.{numbered};

use model::Answer;

// A write failed: the program says so, and ends.
#[derive(Clone, Copy)]
pub struct WriteFailed;

pub type Written = Result<(), WriteFailed>;

fn written(all: bool) -> Written {
    if all { Ok(()) } else { Err(WriteFailed) }
}

pub fn print(text: &[u8]) -> Written {
    written(io::write_all(1, text))
}

// A space and a number.
pub fn print_number(n: u64) -> Written {
    print(b" ")?;
    written(io::print_decimal(1, n))
}

// An answer in its numbers ends the line of its call.
fn print_numbers(answer: Answer, number: u64, place: u64, count: u64) -> Written
    requires { numbers_of answer ≡ numbered number place count }
{
    print(b":")?;
    print_number(number)?;
    print_number(place)?;
    print_number(count)?;
    print(b"\n")
}

// Prints a call's answer.
pub fn print_answer(answer: Answer) -> Written {
    match answer {
        Ok(count) => print_numbers(answer, 0, 0, count as u64),
        Err(why) => {
            let number = u64::from(u32::from(why.refusal));
            print_numbers(answer, number, why.place as u64, 0)
        }
    }
}

// A line of bytes, each as a number.
pub fn print_bytes(name: &[u8], bytes: &[u8]) -> Written {
    print(name)?;
    for b in bytes {
        print_number(u64::from(*b))?;
    }
    print(b"\n")
}
