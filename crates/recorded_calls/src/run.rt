// A run of the program, and the line of a record: numbers with a blank between them. The first is that of the answer.
use crate::input::Input;
use crate::slices::Buffers;
use refusal::Refusal;
use std::fmt;
use std::fmt::Display;

// Where the lines are printed, the input, and the buffers that keep what a record leaves for the next one. For each
// call there is a method that reads its record from after the letter on, makes the call and prints the line; where the
// record breaks its form, no call is made.
#[derive(Drop)]
pub(crate) struct Run<'a, R, F> {
    pub(crate) rt: &'a R,
    pub(crate) input: Input<F>,
    pub(crate) kept: Buffers,
}

// What a call answers: nothing more, a value, or a refusal.
#[derive(Drop)]
pub(crate) struct Answer(Result<Option<u64>, Refusal>);

impl Display for Answer {
    // Writes 0 and the value, or the number of the refusal.
    fn fmt<W: fmt::Write>(&self, f: &mut fmt::Formatter<W>) -> fmt::Result {
        match self.0 {
            Ok(None) => write!(f, "0"),
            Ok(Some(value)) => write!(f, "0 {value}"),
            Err(refusal) => write!(f, "{}", u8::from(refusal)),
        }
    }
}

impl From<Result<(), Refusal>> for Answer {
    // The answer of a call that says only whether it refuses, and why.
    fn from(answer: Result<(), Refusal>) -> Answer {
        Answer(answer.map(|_| None))
    }
}

impl From<Result<u32, Refusal>> for Answer {
    // The answer of a call that counts.
    fn from(answer: Result<u32, Refusal>) -> Answer {
        Answer(answer.map(|count| Some(u64::from(count))))
    }
}

impl From<Result<usize, Refusal>> for Answer {
    // The answer of the sheet reader.
    fn from(answer: Result<usize, Refusal>) -> Answer {
        Answer(answer.map(|n| Some(n as u64)))
    }
}

impl From<Result<bool, Refusal>> for Answer {
    // The answer whether the premise holds.
    fn from(answer: Result<bool, Refusal>) -> Answer {
        Answer(answer.map(|holds| Some(u64::from(holds))))
    }
}

// Prints a line: what comes first, and further numbers. What cannot be printed is left out.
pub(crate) fn print_line<R: Print, D: Display + Drop>(rt: &R, first: D, others: &[u64]) {
    let _ = print!(rt; "{first}");
    for other in others {
        let _ = print!(rt; " {other}");
    }
    let _ = println!(rt);
}
