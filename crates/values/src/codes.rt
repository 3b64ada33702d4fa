// The codes of documents 01 and 02, each named once; 0 is success. Those of working are an enum. The others stay numbers: `taken-iff`, `refused-iff` and the other theorems on refusals say them so, and C gets them from `reader_load` and `set_line_fault`.
ghost use Rattle.std.specs.Prelude.{◌≡◌};
ghost use Rattle.values.specs.Codes.{code_of, alarm_with};

// Text above 4,096 bytes.
pub const TOO_LONG: u8 = 1;

// More than 32 lines with tokens.
pub const TOO_MANY_LINES: u8 = 2;

// A byte or word that makes no token.
pub const NO_TOKEN: u8 = 3;

// More than eight brackets ( open.
pub const TOO_DEEP: u8 = 4;

// Not in the grammar.
pub const NOT_IN_GRAMMAR: u8 = 5;

// Yes/no and number confused.
pub const CONFUSED: u8 = 6;

// Number or index outside its range.
pub const OUTSIDE: u8 = 7;

// Write to a read-only place, or FIFO [0] read elsewhere.
pub const READ_ONLY: u8 = 8;

// M without WHEN or EVERY.
pub const M_ALONE: u8 = 9;

// More than eight actions.
pub const TOO_MANY_ACTIONS: u8 = 10;

// Line number used above.
pub const USED_ABOVE: u8 = 11;

// LOCK or UNLOCK of a number not in the set.
pub const NOT_IN_SET: u8 = 12;

// A curve whose lower limit is above its upper one, that is defined twice, or used but not defined.
pub const WRONG_CURVE: u8 = 13;

// Two moves of one axis in a line.
pub const TWO_MOVES: u8 = 14;

// Order buffer under 2,048 bytes.
pub const SHORT_BUFFER: u8 = 20;

// Not six positions, or one out of range.
pub const WRONG_NUMBERS: u8 = 21;

// Set or state not sound.
pub const UNSOUND: u8 = 22;

// A channel is faulty and never was good, or already had 25 faulty beats in a row.
pub const FAULTY_CHANNEL: u8 = 23;

// Print buffer under 4,096 bytes, or too short for the print.
pub const SHORT_PRINT: u8 = 24;

// Host names a line not in the set, or cancelled.
pub const UNKNOWN_LINE: u8 = 40;

// What ends the working of a line, by its code.
#[derive(Clone, Copy, Debug, PartialEq, Eq)]
pub enum Alarm {
    // A result outside the values.
    OutOfRange = 30,
    // A zero divisor.
    ZeroDivisor = 31,
    // A reading of an empty FIFO.
    FifoEmpty = 32,
    // A value more than a FIFO holds.
    FifoFull = 33,
    // A value that the target does not take.
    NotAllowed = 34,
    // Set or state not sound.
    Unsound = 22,
}

impl Alarm {
    // The code of an alarm.
    pub fn code(self) -> u8
        ensures { result ≡ code_of self }
    {
        self as u8
    }

    // The alarm with a code; Unsound where none has it.
    pub fn with_code(code: u8) -> Alarm
        ensures { result ≡ alarm_with code }
    {
        match code {
            30 => Alarm::OutOfRange,
            31 => Alarm::ZeroDivisor,
            32 => Alarm::FifoEmpty,
            33 => Alarm::FifoFull,
            34 => Alarm::NotAllowed,
            _ => Alarm::Unsound,
        }
    }
}
