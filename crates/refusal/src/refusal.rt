ghost use Rattle.std.specs.Prelude.{◌≡◌, Some};
ghost use Rattle.refusal.specs.Refusals.{refusal_number, refusal_words, fault};

use crate::fault::Fault;
use std::error::Error;
use std::fmt;

// Why a call was refused. The number of each case is part of the interface.
#[derive(Clone, Copy, PartialEq, Eq, Debug)]
pub enum Refusal {
    KeyLength = 1,
    NonceLength = 2,
    DataTooLong = 3,
    TextTooLong = 4,
    SealedTooShort = 5,
    TapeLength = 6,
    TapeDisorder = 7,
    NoEntry = 8,
    EntryTooLong = 9,
    RollFull = 10,
    NoSpace = 11,
    OutTooShort = 12,
    Broken = 13,
}

impl Refusal {
    // The fault of a call on a roll: the refusal, the floor that it is about, and the number of the entry.
    pub fn at(self, floor: u32, entry: u32) -> Fault
        ensures { result ≡ fault self floor entry }
    {
        Fault {
            refusal: self,
            floor,
            entry,
        }
    }

    // The refusal in words.
    pub fn words(self) -> &'static str
        ensures { result.now ≡ refusal_words self }
    {
        match self {
            Refusal::KeyLength => "the key is not 16, 24 or 32 bytes",
            Refusal::NonceLength => "the nonce is not 12 bytes",
            Refusal::DataTooLong => "the associated data passes 65536 bytes",
            Refusal::TextTooLong => "the text passes 65536 bytes",
            Refusal::SealedTooShort => "the sealed bytes are fewer than 8",
            Refusal::TapeLength => "the tape is shorter than 16 or longer than 65536 bytes",
            Refusal::TapeDisorder => "the tape is not in order",
            Refusal::NoEntry => "no entry has the number",
            Refusal::EntryTooLong => "the entry is not shorter than the bound",
            Refusal::RollFull => "the roll has 4095 entries",
            Refusal::NoSpace => "the charge of the entry is more than the space",
            Refusal::OutTooShort => "the out buffer is too short",
            Refusal::Broken => "no text seals to the bytes",
        }
    }
}

// The number of a refusal, 1 to 13.
impl From<Refusal> for u8 {
    ghost from_gives = { λ refusal number. number ≡ refusal_number refusal };

    fn from(refusal: Refusal) -> u8 {
        refusal as u8
    }
}

// A refusal prints as its words. (Not derived: the `Display` that `thiserror` derives states no `ghost output`, so that what is
// printed would be proved no more. A derive of `Error` alone, below, would be no shorter than its line.)
impl fmt::Display for Refusal {
    ghost output = { λ refusal. Some (refusal_words refusal) };

    fn fmt<W: fmt::Write>(&self, f: &mut fmt::Formatter<W>) -> fmt::Result {
        f.write_str(self.words())
    }
}

impl Error for Refusal {}
