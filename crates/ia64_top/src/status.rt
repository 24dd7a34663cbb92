//! How a call of the top call ends.

ghost use Rattle.std.specs.Prelude.{◌≡◌};
ghost use Rattle.ia64_top.specs.Statuses.{status_number};

/// How a call of [`ia64`](crate::ia64) ended. The stated output says when each comes.
#[derive(Clone, Copy, Debug, PartialEq, Eq)]
pub enum Status {
    /// The command did what it does, and what it printed is the whole answer.
    Done = 0,
    /// The program has violations, of which the first hundred are printed.
    Violated = 1,
    /// The arguments are no command. Nothing was read or written.
    Words = 2,
    /// The input has no reading. The first fault is printed.
    Refused = 3,
    /// The input is longer than the limit. Nothing was written.
    TooLong = 4,
    /// The source failed. Nothing was written.
    ReadFault = 5,
    /// The sink failed. A part of the output may stand.
    WriteFault = 6,
    /// Memory ran out. Nothing was written.
    NoMemory = 7,
    /// A run was cut off at its limit of groups.
    Limit = 8,
    /// A run ended in a fault.
    Faulted = 9,
}

impl Status {
    /// The exit status of a program that ends so, 0 to 9.
    pub fn number(&self) -> u8
        ensures { result ≡ status_number self.now }
    {
        *self as u8
    }
}
