// The command bytes that the parts share and the recorder needs.
ghost use Rattle.std.specs.Prelude.{◌≡◌, Some, codes};
ghost use Rattle.std.specs.Result.{result_ok};
ghost use Rattle.flash.specs.Opcodes.{opcode_of, byte_of, Named};

use std::error::Error;
use std::fmt;

#[derive(Clone, Copy, Debug, PartialEq, Eq)]
pub enum Opcode {
    Reset = 0xFF,
    ReadStatus = 0x70,
    ReadId = 0x90,
    Read = 0x00,
    ReadConfirm = 0x30,
    CopyReadConfirm = 0x35,
    Erase = 0x60,
    EraseConfirm = 0xD0,
    Program = 0x80,
    CopyProgram = 0x85,
    ProgramConfirm = 0x10,
    CacheConfirm = 0x15,
}

/// A byte that is none of our commands.
#[derive(Clone, Copy, Debug, PartialEq, Eq)]
pub struct NotACommand;

/// The command that a byte stands for, if it is one of ours.
impl TryFrom<u8> for Opcode {
    type Error = NotACommand;

    ghost try_from_gives = { λ byte r. result_ok r ≡ opcode_of byte };

    fn try_from(byte: u8) -> Result<Opcode, NotACommand>
        ensures value { result_ok result ≡ opcode_of byte }
        ensures named { Named (result_ok result) byte }
    {
        match byte {
            0xFF => Ok(Opcode::Reset),
            0x70 => Ok(Opcode::ReadStatus),
            0x90 => Ok(Opcode::ReadId),
            0x00 => Ok(Opcode::Read),
            0x30 => Ok(Opcode::ReadConfirm),
            0x35 => Ok(Opcode::CopyReadConfirm),
            0x60 => Ok(Opcode::Erase),
            0xD0 => Ok(Opcode::EraseConfirm),
            0x80 => Ok(Opcode::Program),
            0x85 => Ok(Opcode::CopyProgram),
            0x10 => Ok(Opcode::ProgramConfirm),
            0x15 => Ok(Opcode::CacheConfirm),
            _ => Err(NotACommand),
        }
    }
}

/// The byte of a command.
impl From<Opcode> for u8 {
    ghost from_gives = { λ opcode byte. byte ≡ byte_of opcode };

    fn from(opcode: Opcode) -> u8
        ensures value { result ≡ byte_of opcode }
        ensures back { opcode_of result ≡ Some opcode }
    {
        opcode as u8
    }
}

impl fmt::Display for NotACommand {
    ghost output = { λ _. Some (codes "not a command") };

    fn fmt<W: fmt::Write>(&self, f: &mut fmt::Formatter<W>) -> fmt::Result {
        f.write_str("not a command")
    }
}

impl Error for NotACommand {}
