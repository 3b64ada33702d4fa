// A line behind the line *, a beat line or a call, read byte by byte, for it has no greatest length and comes in parts; digits that stand together are read at once.
ghost use Rattle.std.specs.Prelude.{◌≡◌, true, false, ◌+◌, ◌*◌, ◌≤◌, ◌<◌, min, length, set, drop};
ghost use Rattle.text.specs.Byte.{is_digit};
ghost use Rattle.transcript.specs.BeatLine.{is_hex, hex_digit, left_off};
ghost use Rattle.transcript.specs.HalfLine.{no_half_line, is_past, with_stage, ill_formed, highest, is_reading, reading_by, greatest, signed, with_field, closed, space_after, letter_stage, call_stage, mode_byte, minus_byte, digit_byte, number_byte, reading_stage, digits_so_far, hex_byte, reading_byte, field_byte, read_byte, read_on, is_untouched, without_cr, read_lent, read_said, with_reading, with_value, IsNumber, InReading};

use couplers::channel::CHANNELS;
use couplers::reading::{Reading, reading_of};
use text::bytes::{CR, SPACE, is_digit};
use working::variables::POSITIONS;

// Fields are counted from 0: the mode, the input word, the readings, the positions.
const FIRST_POSITION: u8 = CHANNELS as u8 + 2;

pub const LAST_FIELD: u8 = FIRST_POSITION + POSITIONS as u8 - 1;

// The greatest input word and positions.
const WORD_TOP: u64 = 65535;

const POSITIVE_TOP: u64 = 2147483647;

const NEGATIVE_TOP: u64 = 2147483648;
// More than any field may say; a value is never beyond it.
const HIGHEST: u64 = 10000000000;

// The digits of a reading stand behind a 1, so that zeros before the others count: the value of B, the first of eight digits, and one beyond these, for S.
const BREAK_VALUE: u64 = 27;

const EIGHT_DIGITS: u64 = 4294967296;

const SHORT_VALUE: u64 = 8589934592;

// What is read of a field: nothing, something behind which it may not end, what may end it.
// No field is under way where the line is ill-formed, where a CR stands behind it, and in PE and RS: the first letter, both, and a CR behind these.
// `Unknown` is any number but theirs, as a session that is made up may have it: no field is under way, and the next byte makes the line ill-formed. No answer hangs on the number.
#[derive(Clone, Copy, PartialEq, Eq)]
pub enum Stage {
    Empty,
    Open,
    Endable,
    Ill,
    Return,
    PRead,
    PeRead,
    PeReturn,
    RRead,
    RsRead,
    RsReturn,
    Unknown(u8),
}

// A line so far. A break and a short are values as well (`reading_by`), so that a byte of a field changes one number, whichever field it is. `value` has the digits of the field under way.
// `field` stays a number: the next field is one more, and what channels send and the positions are placed by it.
#[derive(Clone, Copy)]
pub struct HalfLine {
    pub field: u8,
    pub stage: Stage,
    pub automatic: bool,
    pub word: u16,
    pub negative: bool,
    pub value: u64,
    pub sent: [Reading; CHANNELS],
    pub positions: [i32; POSITIONS],
}

// What the host lends in a beat: the mode, the input word, what the channels send, the positions.
#[derive(Clone, Copy)]
pub struct Lent {
    pub automatic: bool,
    pub word: u16,
    pub sent: [Reading; CHANNELS],
    pub positions: [i32; POSITIONS],
}

// What a line says: a beat, with what is lent for it; the end of the part program; a control reset.
#[derive(Clone, Copy)]
pub enum Said {
    Beat(Lent),
    ProgramEnd,
    ControlReset,
}

// A value, and how many digits were read for it.
#[derive(Clone, Copy)]
struct Digits {
    value: u64,
    count: usize,
}

// A line so far, and how many bytes were read for it.
#[derive(Clone, Copy)]
struct Begun {
    half: HalfLine,
    count: usize,
}

// A reading that is left off.
fn left_off() -> Reading
    ensures { result ≡ left_off }
{
    reading_of(0)
}

// ---- bytes

// A digit of a number of bits.
fn is_hex(b: u8) -> bool
    ensures { result ≡ is_hex b }
{
    is_digit(b) || matches!(b, b'A'..=b'F')
}

fn hex_digit(b: u8) -> u64
    requires { is_hex b ≡ true }
    ensures { (result ≡ hex_digit b) × (result ≤ 15) }
{
    if is_digit(b) {
        u64::from(b - b'0')
    } else {
        u64::from(b - b'A' + 10)
    }
}

// One more digit of a value.
fn grown(value: u64, digit: u64) -> u64
    requires { digit ≤ 9 }
    ensures { result ≡ min highest (value * 10 + digit) }
{
    if HIGHEST <= value {
        return HIGHEST;
    }
    HIGHEST.min(value * 10 + digit)
}

// A number by its sign and its absolute value.
fn signed_value(negative: bool, n: u64) -> i32
    requires { (negative ≡ true → n ≤ 2147483648) × (negative ≡ false → n < 2147483648) }
    ensures { result ≡ signed negative n }
{
    let size = n as i64;
    let value = if negative { -size } else { size };
    value as i32
}

// The reading that a value says.
#[tactic(auto, unfolding(crate::specs::HalfLine::reading_by))]
fn reading_by(v: u64) -> Reading
    ensures { result ≡ reading_by v }
{
    if v == BREAK_VALUE {
        Reading::Break
    } else if SHORT_VALUE <= v {
        Reading::Short
    } else {
        reading_of((v % EIGHT_DIGITS) as u32)
    }
}

// A reading that says v may end there, or not yet.
#[tactic(auto, unfolding(crate::specs::HalfLine::reading_stage))]
fn reading_stage(v: u64) -> Stage
    ensures { result ≡ reading_stage v }
{
    if v == BREAK_VALUE || EIGHT_DIGITS <= v {
        Stage::Endable
    } else {
        Stage::Open
    }
}

#[tactic(auto, unfolding(crate::specs::HalfLine::is_reading))]
fn is_reading(field: u8) -> bool
    ensures { result ≡ is_reading field }
{
    matches!(field, 2..FIRST_POSITION)
}

// More digits of the input word or a position, behind those that say `before`.
fn more_digits(part: &[u8], before: u64) -> Digits
    ensures count { result.count ≤ length part.now }
    ensures value { (r : HalfLine) → IsNumber r → read_on (with_value r result.value) (drop result.count part.now) ≡ read_on (with_value r before) part.now }
{
    let mut value = before;
    for (i, b) in part.iter().enumerate() {
        if !is_digit(*b) {
            return Digits { value, count: i };
        }
        value = grown(value, u64::from(*b - b'0'));
    }
    Digits {
        value,
        count: part.len(),
    }
}

// More digits of a reading, behind those that say `before`, up to the eighth.
fn more_hex(part: &[u8], before: u64) -> Digits
    ensures count { result.count ≤ length part.now }
    ensures value { (r : HalfLine) → InReading r → read_on (with_reading r result.value) (drop result.count part.now) ≡ read_on (with_reading r before) part.now }
{
    let mut value = before;
    for (i, b) in part.iter().enumerate() {
        if EIGHT_DIGITS <= value || !is_hex(*b) {
            return Digits { value, count: i };
        }
        value = value * 16 + hex_digit(*b);
    }
    Digits {
        value,
        count: part.len(),
    }
}

impl Stage {
    // Whether no field is under way any more.
    fn is_past(self) -> bool
        ensures { result ≡ is_past self }
    {
        !matches!(self, Stage::Empty | Stage::Open | Stage::Endable)
    }

    // The stage behind the first byte of a line that is no mode.
    #[tactic(auto, unfolding(crate::specs::HalfLine::letter_stage))]
    fn of_letter(b: u8) -> Stage
        ensures { result ≡ letter_stage b }
    {
        match b {
            b'P' => Stage::PRead,
            b'R' => Stage::RRead,
            _ => Stage::Ill,
        }
    }

    // The stage behind the next byte of PE, of RS, of an ill-formed line.
    #[tactic(auto, unfolding(crate::specs::HalfLine::call_stage))]
    fn of_call(self, b: u8) -> Stage
        ensures { result ≡ call_stage self b }
    {
        match (self, b) {
            (Stage::PRead, b'E') => Stage::PeRead,
            (Stage::RRead, b'S') => Stage::RsRead,
            (Stage::PeRead, CR) => Stage::PeReturn,
            (Stage::RsRead, CR) => Stage::RsReturn,
            _ => Stage::Ill,
        }
    }
}

impl HalfLine {
    // Before the first byte.
    pub(crate) fn new() -> HalfLine
        ensures { result ≡ no_half_line }
    {
        HalfLine {
            field: 0,
            stage: Stage::Empty,
            automatic: false,
            word: 0,
            negative: false,
            value: 0,
            sent: [left_off(); CHANNELS],
            positions: [0; POSITIONS],
        }
    }

    fn with_stage(self, stage: Stage) -> HalfLine
        ensures { result ≡ with_stage self stage }
    {
        HalfLine { stage, ..self }
    }

    fn ill_formed(self) -> HalfLine
        ensures { result ≡ ill_formed self }
    {
        self.with_stage(Stage::Ill)
    }

    // ---- the end of a field

    // The greatest value of the field under way.
    #[tactic(auto, unfolding(crate::specs::HalfLine::greatest))]
    fn greatest(self) -> u64
        ensures { result ≡ greatest self }
    {
        if self.field == 1 {
            WORD_TOP
        } else if is_reading(self.field) {
            SHORT_VALUE
        } else if self.negative {
            NEGATIVE_TOP
        } else {
            POSITIVE_TOP
        }
    }

    // The value of the field under way becomes the input word, a reading or a position.
    #[tactic(auto, unfolding(crate::specs::HalfLine::with_field, crate::specs::HalfLine::greatest, crate::specs::HalfLine::is_reading))]
    fn with_field(self) -> HalfLine
        requires { 1 ≤ self.field }
        ensures { result ≡ with_field self }
    {
        if self.greatest() < self.value {
            return self.ill_formed();
        }
        let mut x = HalfLine {
            negative: false,
            value: 0,
            ..self
        };
        if self.field == 1 {
            x.word = self.value as u16;
        } else if is_reading(self.field) {
            x.sent[usize::from(self.field - 2)] = reading_by(self.value);
        } else if self.field <= LAST_FIELD {
            x.positions[usize::from(self.field - FIRST_POSITION)] = signed_value(
                self.negative,
                self.value,
            );
        }
        x
    }

    // The field under way is over, if it may end there. Put into its callers: a call would copy the line so far.
    #[tactic(auto, unfolding(crate::specs::HalfLine::closed))]
    #[inline]
    fn close(self) -> HalfLine
        ensures { result ≡ closed self }
    {
        if self.stage != Stage::Endable {
            self.ill_formed()
        } else if self.field == 0 {
            self
        } else {
            self.with_field()
        }
    }

    // ---- the next byte

    // A space behind a field: the next begins, if there may be one.
    #[tactic(auto, unfolding(crate::specs::HalfLine::space_after))]
    fn space_after(self) -> HalfLine
        ensures { result ≡ space_after self }
    {
        if self.stage != Stage::Endable || LAST_FIELD <= self.field {
            return self.ill_formed();
        }
        HalfLine {
            field: self.field + 1,
            stage: Stage::Empty,
            ..self
        }
    }

    // The first byte of a line: the mode's letter, or that of a call.
    #[tactic(auto, unfolding(crate::specs::HalfLine::mode_byte))]
    fn mode_byte(self, b: u8) -> HalfLine
        ensures { result ≡ mode_byte self b }
    {
        if self.stage != Stage::Empty {
            return self.ill_formed();
        }
        match b {
            b'A' => HalfLine {
                stage: Stage::Endable,
                automatic: true,
                ..self
            },
            b'M' => HalfLine {
                stage: Stage::Endable,
                automatic: false,
                ..self
            },
            _ => self.with_stage(Stage::of_letter(b)),
        }
    }

    // A minus before the digits of a position, not of the input word.
    #[tactic(auto, unfolding(crate::specs::HalfLine::minus_byte))]
    fn minus_byte(self) -> HalfLine
        ensures { result ≡ minus_byte self }
    {
        if self.stage != Stage::Empty || self.field < 2 {
            return self.ill_formed();
        }
        HalfLine {
            stage: Stage::Open,
            negative: true,
            ..self
        }
    }

    #[tactic(auto, unfolding(crate::specs::HalfLine::digit_byte))]
    fn digit_byte(self, b: u8) -> HalfLine
        requires { is_digit b ≡ true }
        ensures { result ≡ digit_byte self b }
    {
        HalfLine {
            stage: Stage::Endable,
            value: grown(self.value, u64::from(b - b'0')),
            ..self
        }
    }

    // A byte of the input word or a position.
    #[tactic(auto, unfolding(crate::specs::HalfLine::number_byte))]
    fn number_byte(self, b: u8) -> HalfLine
        ensures { result ≡ number_byte self b }
    {
        if is_digit(b) {
            self.digit_byte(b)
        } else if b == b'-' {
            self.minus_byte()
        } else {
            self.ill_formed()
        }
    }

    fn with_reading(self, value: u64) -> HalfLine
        ensures { result ≡ with_reading self value }
    {
        HalfLine {
            stage: reading_stage(value),
            value,
            ..self
        }
    }

    // The digits so far, behind a 1.
    #[tactic(auto, unfolding(crate::specs::HalfLine::digits_so_far))]
    fn digits_so_far(self) -> u64
        ensures { result ≡ digits_so_far self }
    {
        if self.stage == Stage::Empty {
            1
        } else {
            self.value
        }
    }

    // A digit of a reading, if it has not eight.
    #[tactic(auto, unfolding(crate::specs::HalfLine::hex_byte))]
    fn hex_byte(self, b: u8) -> HalfLine
        requires { is_hex b ≡ true }
        ensures { result ≡ hex_byte self b }
    {
        let before = self.digits_so_far();
        if EIGHT_DIGITS <= before {
            return self.ill_formed();
        }
        self.with_reading(before * 16 + hex_digit(b))
    }

    // A byte of a reading.
    #[tactic(auto, unfolding(crate::specs::HalfLine::reading_byte))]
    fn reading_byte(self, b: u8) -> HalfLine
        ensures { result ≡ reading_byte self b }
    {
        if is_hex(b) {
            self.hex_byte(b)
        } else if b == b'S' && self.stage == Stage::Empty {
            self.with_reading(SHORT_VALUE)
        } else {
            self.ill_formed()
        }
    }

    // A byte of a field, by what it is.
    #[tactic(auto, unfolding(crate::specs::HalfLine::field_byte))]
    fn field_byte(self, b: u8) -> HalfLine
        ensures { result ≡ field_byte self b }
    {
        if self.field == 0 {
            self.mode_byte(b)
        } else if is_reading(self.field) {
            self.reading_byte(b)
        } else {
            self.number_byte(b)
        }
    }

    // The next byte of the line.
    #[tactic(auto, unfolding(crate::specs::HalfLine::read_byte))]
    fn read_byte(self, b: u8) -> HalfLine
        ensures { result ≡ read_byte self b }
    {
        if self.stage.is_past() {
            return self.with_stage(self.stage.of_call(b));
        }
        match b {
            SPACE => self.close().space_after(),
            CR if self.stage == Stage::Endable => self.with_stage(Stage::Return),
            CR => self.ill_formed(),
            _ => self.field_byte(b),
        }
    }

    // ---- digits read at once

    // A reading with the digits that follow, if one was read before.
    fn reading_run(self, part: &[u8]) -> Begun
        requires { InReading self }
        ensures count { result.count ≤ length part.now }
        ensures half { read_on result.half (drop result.count part.now) ≡ read_on self part.now }
    {
        if self.stage != reading_stage(self.value) {
            return Begun {
                half: self,
                count: 0,
            };
        }
        let digits = more_hex(part, self.value);
        Begun {
            half: self.with_reading(digits.value),
            count: digits.count,
        }
    }

    // The input word or a position with the digits that follow, if one was read before.
    fn number_run(self, part: &[u8]) -> Begun
        requires { IsNumber self }
        ensures count { result.count ≤ length part.now }
        ensures half { read_on result.half (drop result.count part.now) ≡ read_on self part.now }
    {
        if self.stage != Stage::Endable {
            return Begun {
                half: self,
                count: 0,
            };
        }
        let digits = more_digits(part, self.value);
        Begun {
            half: HalfLine {
                value: digits.value,
                ..self
            },
            count: digits.count,
        }
    }

    // A line with the digits of its field that follow.
    fn read_run(self, part: &[u8]) -> Begun
        ensures count { result.count ≤ length part.now }
        ensures half { read_on result.half (drop result.count part.now) ≡ read_on self part.now }
    {
        if self.stage.is_past() || self.field == 0 {
            Begun {
                half: self,
                count: 0,
            }
        } else if is_reading(self.field) {
            self.reading_run(part)
        } else {
            self.number_run(part)
        }
    }

    // Bytes of the line, none of them an LF: behind each that is read by itself the digits that follow it at once.
    #[tactic(auto, unfolding(crate::specs::HalfLine::read_on))]
    pub fn read_bytes(self, part: &[u8]) -> HalfLine
        ensures { result ≡ read_on self part.now }
    {
        let mut x = self;
        let mut rest = part;
        // A run says how many bytes it read: no `for` counts them.
        while let Some((b, behind)) = rest.split_first() {
            let run = x.read_byte(*b).read_run(behind);
            x = run.half;
            rest = &behind[run.count..];
        }
        x
    }

    // ---- the end of the line

    // Whether no byte was read.
    #[tactic(auto, unfolding(crate::specs::HalfLine::is_untouched))]
    pub fn is_untouched(self) -> bool
        ensures { result ≡ is_untouched self }
    {
        self.field == 0 && self.stage == Stage::Empty
    }

    // At the line's LF a CR before it is dropped.
    #[tactic(auto, unfolding(crate::specs::HalfLine::without_cr))]
    pub fn without_cr(self) -> HalfLine
        ensures { result ≡ without_cr self }
    {
        match self.stage {
            Stage::Return => self.with_stage(Stage::Endable),
            Stage::PeReturn => self.with_stage(Stage::PeRead),
            Stage::RsReturn => self.with_stage(Stage::RsRead),
            _ => self,
        }
    }

    // What a beat line that ends there lends: it has a mode and an input word.
    #[tactic(auto, unfolding(crate::specs::HalfLine::read_lent))]
    fn read_lent(self) -> Option<Lent>
        ensures { result ≡ read_lent self }
    {
        let c = self.close();
        if c.stage != Stage::Endable || self.field < 1 {
            return None;
        }
        Some(Lent {
            automatic: c.automatic,
            word: c.word,
            sent: c.sent,
            positions: c.positions,
        })
    }

    // What the line says, if it is well-formed.
    #[tactic(auto, unfolding(crate::specs::HalfLine::read_said))]
    pub fn read_said(self) -> Option<Said>
        ensures { result ≡ read_said self }
    {
        match self.stage {
            Stage::PeRead => Some(Said::ProgramEnd),
            Stage::RsRead => Some(Said::ControlReset),
            _ => self.read_lent().map(|lent| Said::Beat(lent)),
        }
    }
}
