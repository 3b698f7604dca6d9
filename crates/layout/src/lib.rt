// The records of document 01's session file as bytes: numbers at fixed places, the lowest byte first, 24 bytes a record. And why a tool
// that fills a lent buffer may turn away what it was lent.
#![tactic(auto)]

ghost use Rattle.std.specs.Prelude.{◌≡◌};
ghost use Rattle.layout.specs.Ended.{number_of};

pub mod records;

// A sheet as the file has it, whether or not a sheet may be so.
#[derive(Clone, Copy)]
pub struct SheetRecord {
    pub a1: i32,
    pub a2: i32,
    pub a3: i32,
    pub t0: u32,
    pub k: u32,
    // The last four bytes, which are to be zero.
    pub rest: u32,
}

// An event as the file has it: any 24 bytes are one, so that nothing of a file is lost on the way to it.
#[derive(Clone, Copy)]
pub struct EventRecord {
    pub kind: u8,
    // The three bytes after the kind, which are to be zero, as one number.
    pub pad: u32,
    pub raw: i32,
    // C, which for a load is an index.
    pub cylinder: u32,
    pub p: u32,
    pub t: u32,
    pub e: u32,
}

// An answer: the event's kind byte, the refusal or 0, and the three numbers.
#[derive(Clone, Copy)]
pub struct AnswerRecord {
    pub kind: u8,
    pub refusal: u8,
    pub m: u32,
    pub x: i64,
    pub y: i64,
}

// Why a tool that fills a lent buffer turned away what it was lent.
#[derive(Clone, Copy, PartialEq, Eq)]
pub enum TurnedAway {
    // A record is not as it must be.
    Malformed,
    // No session file: its header or its length is not accepted.
    NoSession,
    // The buffer is too short for the answers.
    NoRoomForAnswers,
    // More sheets or events than a session may have.
    TooMany,
    // The buffer is too short for the file.
    NoRoomForFile,
    // No number of sample lines that a header line may have under it.
    NoSuchNumber,
    // The buffer is too short for the page.
    NoRoomForPage,
}

impl TurnedAway {
    // The number that a host has for it.
    pub fn number(self) -> u8
        ensures { result ≡ number_of self }
    {
        match self {
            TurnedAway::Malformed => 11,
            TurnedAway::NoSession => 12,
            TurnedAway::NoRoomForAnswers => 13,
            TurnedAway::TooMany => 14,
            TurnedAway::NoRoomForFile => 15,
            TurnedAway::NoSuchNumber => 16,
            TurnedAway::NoRoomForPage => 17,
        }
    }
}
