// What came out, as text.
use refusals::Refusal;
use std::fmt;

// Whether a call was granted, or by which number it was refused; Display cannot be given to a Result itself.
#[derive(Clone, Copy)]
pub struct Granted(pub Result<(), Refusal>);

impl fmt::Display for Granted {
    fn fmt<W: fmt::Write>(&self, f: &mut fmt::Formatter<W>) -> fmt::Result {
        match self.0 {
            Ok(()) => write!(f, "granted"),
            Err(refusal) => write!(f, "refused by {}", refusal.number()),
        }
    }
}
