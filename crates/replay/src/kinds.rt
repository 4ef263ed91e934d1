// The kinds of jobs that are replayed, by their numbers in the stream.
use crate::stored::Fault;
use std::fmt;

#[derive(Clone, Copy, PartialEq, Eq, Debug)]
pub enum Kind {
    Contexts,
    Sampling,
    Pack,
    Token,
    Value,
    ModeStep,
    Candidates,
    Partition,
    Marks,
}

// In the order in which they are reported.
pub const KINDS: [Kind; 9] = [
    Kind::Contexts,
    Kind::Sampling,
    Kind::Pack,
    Kind::Token,
    Kind::Value,
    Kind::ModeStep,
    Kind::Candidates,
    Kind::Partition,
    Kind::Marks,
];

impl TryFrom<u32> for Kind {
    type Error = Fault;

    fn try_from(number: u32) -> Result<Self, Fault> {
        match number {
            4 => Ok(Kind::Contexts),
            5 => Ok(Kind::Sampling),
            6 => Ok(Kind::Pack),
            7 => Ok(Kind::Token),
            8 => Ok(Kind::Value),
            16 => Ok(Kind::ModeStep),
            17 => Ok(Kind::Candidates),
            18 => Ok(Kind::Partition),
            49 => Ok(Kind::Marks),
            _ => Err(Fault::UnknownKind),
        }
    }
}

impl fmt::Display for Kind {
    fn fmt<W: fmt::Write>(&self, f: &mut fmt::Formatter<W>) -> fmt::Result {
        f.write_str(match self {
            Kind::Contexts => "contexts",
            Kind::Sampling => "even sampling",
            Kind::Pack => "packing",
            Kind::Token => "tokens",
            Kind::Value => "values",
            Kind::ModeStep => "mode step",
            Kind::Candidates => "candidates",
            Kind::Partition => "partition",
            Kind::Marks => "marks",
        })
    }
}
