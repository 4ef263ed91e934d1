// What is left to read of the stored bytes: little-endian words. An answer is held to a computed one while it is read.
ghost use Rattle.std.specs.Prelude.{◌≡◌, ◌+◌, ◌<◌, IfOk, length};

use std::alloc::{AllocError, AllocFailed};

// Why a case is wrong.
#[derive(Clone, Copy, PartialEq, Eq, Debug)]
pub enum Fault {
    EndsEarly,
    EndsLate,
    Differs,
    UnknownKind,
    TooLarge,
    OutOfMemory,
}

impl From<AllocError> for Fault {
    fn from(_e: AllocError) -> Fault {
        Fault::OutOfMemory
    }
}

impl<T: Drop> From<AllocFailed<T>> for Fault {
    fn from(_e: AllocFailed<T>) -> Fault {
        Fault::OutOfMemory
    }
}

// A stored value is the computed one.
fn alike<T: PartialEq + Copy>(stored: T, computed: T) -> Result<(), Fault> {
    if stored == computed {
        Ok(())
    } else {
        Err(Fault::Differs)
    }
}

#[derive(Clone, Copy)]
pub struct Stored<'a> {
    pub rest: &'a [u8],
}

// A message: its kind, its body, and the body with all that is stored behind it.
#[derive(Clone, Copy)]
pub struct Message<'a> {
    pub kind: u32,
    pub body: Stored<'a>,
    pub open: Stored<'a>,
}

impl<'a> Stored<'a> {
    // So many bytes. Where fewer are left, none is.
    fn bytes<const N: usize>(&mut self) -> Result<[u8; N], Fault>
        ensures { IfOk result (λ _. length self.new.rest.now + N ≡ length self.old.rest.now) }
    {
        let (front, rest) = match self.rest.split_first_chunk::<N>() {
            Some((&bytes, rest)) => (Ok(bytes), rest),
            None => (Err(Fault::EndsEarly), self.rest.split_at(0).0),
        };
        self.rest = rest;
        front
    }

    fn next_word(&mut self) -> Result<u32, Fault>
        ensures { IfOk result (λ _. length self.new.rest.now < length self.old.rest.now) }
    {
        Ok(u32::from_le_bytes(self.bytes()?))
    }

    // The next word of a job. Behind all that is stored there are zeros.
    pub fn word(&mut self) -> u32 {
        self.next_word().unwrap_or(0)
    }

    pub fn signed(&mut self) -> i32 {
        self.word().cast_signed()
    }

    pub fn long(&mut self) -> u64 {
        let low = self.word();
        u64::from(low) + (u64::from(self.word()) << 32)
    }

    // So many bytes are passed over, or all that are left.
    pub fn skip(&mut self, count: u64) {
        let left = self.rest.len();
        self.rest = self.rest.split_at((count as usize).min(left)).1;
    }

    // The next words become a list's entries, as signed numbers.
    pub fn numbers(&mut self, list: &mut [i32]) {
        for number in list {
            *number = self.signed();
        }
    }

    // The next words of 64 bits become a list's entries.
    pub fn longs(&mut self, list: &mut [u64]) {
        for number in list {
            *number = self.long();
        }
    }

    // The next message; what is left to read begins behind its body.
    pub fn message(&mut self) -> Result<Message<'a>, Fault>
        ensures { IfOk result (λ _. length self.new.rest.now < length self.old.rest.now) }
    {
        let kind = self.next_word()?;
        let size = self.next_word()? as usize;
        let open = *self;
        let (body, rest) = self.rest.split_at_checked(size).ok_or(Fault::EndsEarly)?;
        self.rest = rest;
        let body = Stored { rest: body };
        Ok(Message { kind, body, open })
    }

    pub fn expect_byte(&mut self, value: u8) -> Result<(), Fault> {
        let [byte] = self.bytes::<1>()?;
        alike(byte, value)
    }

    pub fn expect(&mut self, value: u32) -> Result<(), Fault> {
        alike(self.next_word()?, value)
    }

    // A list: how many, and each.
    pub fn expect_list(&mut self, list: &[u32]) -> Result<(), Fault> {
        self.expect_count(list.len())?;
        for &value in list {
            self.expect(value)?;
        }
        Ok(())
    }

    pub fn expect_count(&mut self, count: usize) -> Result<(), Fault> {
        self.expect(u32::try_from(count).map_err(|_| Fault::TooLarge)?)
    }

    pub fn expect_end(&self) -> Result<(), Fault> {
        if self.rest.is_empty() {
            Ok(())
        } else {
            Err(Fault::EndsLate)
        }
    }
}
