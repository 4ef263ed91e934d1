// How many cases were tried, how many came out wrong, and the first of these.
#![tactic(auto)]

ghost use Rattle.std.specs.Prelude.{◌≡◌};
ghost use Rattle.tally.specs.Counted.{nothing, counted};

use std::{fmt, io};

#[derive(Clone, Copy, PartialEq, Eq, Debug)]
pub struct Tally {
    pub tried: u64,
    pub wrong: u64,
    pub first: Option<u32>,
}

impl Tally {
    // Stays: by a name of its own and no `Default`, whose name would not say that nothing was tried yet.
    pub fn none() -> Self
        ensures { result ≡ nothing }
    {
        Self {
            tried: 0,
            wrong: 0,
            first: None,
        }
    }

    // One case more: right or not, and what it was.
    pub fn with(self, right: bool, at: u32) -> Self
        ensures { result ≡ counted self right at }
    {
        let tried = self.tried.wrapping_add(1);
        if right {
            return Self { tried, ..self };
        }
        Self {
            tried,
            wrong: self.wrong.wrapping_add(1),
            first: self.first.or(Some(at)),
        }
    }
}

impl fmt::Display for Tally {
    fn fmt<W: fmt::Write>(&self, f: &mut fmt::Formatter<W>) -> fmt::Result {
        write!(f, "{} tried, {} wrong", self.tried, self.wrong)?;
        if let Some(at) = self.first {
            write!(f, ", the first at {at}")?;
        }
        Ok(())
    }
}

// Prints a tally under a name.
pub fn report(rt: &impl Print, name: &[u8], t: Tally) -> io::Result<()> {
    rt.write_all(name)?;
    println!(rt; ": {t}")
}
