// The two parts, and the five bytes by which a chip says which one it is.
ghost use Rattle.std.specs.Prelude.{◌≡◌, Some, codes};
ghost use Rattle.std.specs.Result.{result_ok};
ghost use Rattle.flash.specs.Parts.{blocks_of, address_cycles, programs_allowed, identity_of, identified, ToldBy, part_name};

use std::error::Error;
use std::fmt;

#[derive(Clone, Copy, Debug, PartialEq, Eq)]
pub enum Part {
    OneGbit,
    TwoGbit,
}

/// Five identity bytes that are of neither part.
#[derive(Clone, Copy, Debug, PartialEq, Eq)]
pub struct UnknownIdentity;

pub const ONE_GBIT_ID: [u8; 5] = [0xC8, 0xD1, 0x80, 0x95, 0x42];

pub const TWO_GBIT_ID: [u8; 5] = [0xC8, 0xDA, 0x90, 0x95, 0x44];

impl Part {
    /// How many blocks the part has.
    pub fn blocks(self) -> u16
        ensures { result ≡ blocks_of self }
    {
        match self {
            Part::OneGbit => 1024,
            Part::TwoGbit => 2048,
        }
    }

    /// How many address cycles a full address has: two of the column, the rest of the row.
    pub fn address_cycles(self) -> u8
        ensures { result ≡ address_cycles self }
    {
        match self {
            Part::OneGbit => 4,
            Part::TwoGbit => 5,
        }
    }

    /// How many programs a page may have between two erases of its block.
    pub fn programs_allowed(self) -> u8
        ensures { result ≡ programs_allowed self }
    {
        match self {
            Part::OneGbit => 4,
            Part::TwoGbit => 4,
        }
    }

    /// The five bytes that this part answers to the identity command.
    pub fn identity(self) -> [u8; 5]
        ensures { result ≡ identity_of self }
    {
        match self {
            Part::OneGbit => ONE_GBIT_ID,
            Part::TwoGbit => TWO_GBIT_ID,
        }
    }
}

/// The part with these five identity bytes, if there is one: all five count.
impl TryFrom<[u8; 5]> for Part {
    type Error = UnknownIdentity;

    ghost try_from_gives = { λ bytes r. result_ok r ≡ identified bytes };

    fn try_from(bytes: [u8; 5]) -> Result<Part, UnknownIdentity>
        ensures value { result_ok result ≡ identified bytes }
        ensures told { ToldBy (result_ok result) bytes }
    {
        match bytes {
            ONE_GBIT_ID => Ok(Part::OneGbit),
            TWO_GBIT_ID => Ok(Part::TwoGbit),
            _ => Err(UnknownIdentity),
        }
    }
}

impl fmt::Display for Part {
    ghost output = { λ part. Some (part_name part) };

    fn fmt<W: fmt::Write>(&self, f: &mut fmt::Formatter<W>) -> fmt::Result {
        f.write_str(match self {
            Part::OneGbit => "1G",
            Part::TwoGbit => "2G",
        })
    }
}

impl fmt::Display for UnknownIdentity {
    ghost output = { λ _. Some (codes "unknown identity") };

    fn fmt<W: fmt::Write>(&self, f: &mut fmt::Formatter<W>) -> fmt::Result {
        f.write_str("unknown identity")
    }
}

impl Error for UnknownIdentity {}
