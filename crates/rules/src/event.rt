// RULES 2.1: events, their codes, and the bytes of one in a list or a day file.
ghost use Rattle.std.specs.Prelude.{◌≡◌};
ghost use Rattle.rules.specs.Code.{code_number, ReadsCode};

use crate::refusal::Refusal;

#[derive(Clone, Copy, PartialEq, Eq)]
pub enum Code {
    Start = 1,
    Read = 2,
    Write = 3,
    Commit = 4,
    Abort = 5,
    Add = 6,
    Enter = 7,
    Judge = 8,
}

impl From<Code> for u64 {
    ghost from_gives = { λ code number. number ≡ code_number code };

    fn from(code: Code) -> u64 {
        code as u64
    }
}

impl TryFrom<u64> for Code {
    type Error = Refusal;

    ghost try_from_gives = { ReadsCode };

    fn try_from(number: u64) -> Result<Code, Refusal> {
        match number {
            1 => Ok(Code::Start),
            2 => Ok(Code::Read),
            3 => Ok(Code::Write),
            4 => Ok(Code::Commit),
            5 => Ok(Code::Abort),
            6 => Ok(Code::Add),
            7 => Ok(Code::Enter),
            8 => Ok(Code::Judge),
            _ => Err(Refusal::Code),
        }
    }
}

// An event as it is asked for: any number may stand for its code, and its card may have any length.
#[derive(Clone, Copy)]
pub struct Event<'a> {
    pub code: u64,
    pub number: u64,
    pub account: u64,
    pub card: &'a [u8],
}

pub const EVENT_LENGTH: usize = 35;

pub const NUMBER_AT: usize = 1;

pub const ACCOUNT_AT: usize = 2;

pub const CARD_AT: usize = 3;
