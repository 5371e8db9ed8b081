// How the answers of calls are shown.
use std::fmt;

// What a call answered, or its refusal.
#[derive(Drop)]
pub struct Outcome<T, E>(pub Result<T, E>);

impl<T: fmt::Display, E: fmt::Display> fmt::Display for Outcome<T, E> {
    fn fmt<W: fmt::Write>(&self, f: &mut fmt::Formatter<W>) -> fmt::Result {
        match &self.0 {
            Ok(answer) => write!(f, "{answer}"),
            Err(refusal) => write!(f, "{refusal}"),
        }
    }
}

// How many numbers were written.
#[derive(Drop)]
pub struct Count(pub usize);

impl fmt::Display for Count {
    fn fmt<W: fmt::Write>(&self, f: &mut fmt::Formatter<W>) -> fmt::Result {
        let count = self.0;
        write!(f, "{count} numbers")
    }
}

// The first nine numbers of a formula, each with a space before it.
#[derive(Drop)]
pub struct Front<'a>(pub &'a [i16]);

impl fmt::Display for Front<'_> {
    fn fmt<W: fmt::Write>(&self, f: &mut fmt::Formatter<W>) -> fmt::Result {
        for number in self.0.iter().take(9) {
            write!(f, " {number}")?;
        }
        Ok(())
    }
}
