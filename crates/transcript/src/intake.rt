// The input of a session as it comes in, in parts of lines of any size: set text up to the line *, then the lines behind it. What a line's end brings is told; nothing is worked or printed here.
//
// Anyone may make a session, with any intake, and call the public methods of its parts: they ask nothing. `step` tests what it is handed, and a session calls those named `_kept`, which ask that no more is kept than there is room for: that is no invariant of a type.
ghost use Rattle.std.specs.Prelude.{◌≡◌, ◌≤◌};
ghost use Rattle.transcript.specs.Intake.{is_over, in_beats, no_intake, with_phase, with_place, intake_fits, bytes_taken, bytes_kept, nothing_came, text_whole, text_line_over, text_line_kept, line_read, line_over, line_kept, input_over};
ghost use Rattle.transcript.specs.SetText.{kept_size, place_kept};
ghost use Rattle.transcript.specs.declared.intake.Phase.TheVariants.{Over};

use crate::beat_line::{HalfLine, LAST_FIELD, Said};
use crate::set_text::{KEPT, Place};
use text::buffer::{put, put_bytes};
use text::bytes::LF;

// What is taken in: set text, the lines behind the line *, no more.
// `Unknown` is any number but theirs, as a session that is made up may have it: nothing is taken in, and it is not over. No answer hangs on the number.
#[derive(Clone, Copy, PartialEq, Eq)]
pub enum Phase {
    Text,
    Beats,
    Over,
    Unknown(u8),
}

// What is kept of the input beside the bytes of the set text.
#[derive(Clone, Copy)]
pub struct Intake {
    pub phase: Phase,
    pub place: Place,
    pub half: HalfLine,
}

// What the end of a line, or of the input, brings: nothing; the whole set text, so many bytes of what is kept; a line behind the line *, and what it says if it is well-formed.
#[derive(Clone, Copy)]
pub enum Arrival {
    Nothing,
    WholeText(usize),
    LineCame(Option<Said>),
}

// That, and the intake behind it.
#[derive(Clone, Copy)]
pub struct Arrived {
    pub intake: Intake,
    pub arrival: Arrival,
}

impl Intake {
    // Before the first byte of input.
    pub(crate) fn new() -> Intake
        ensures { result ≡ no_intake }
    {
        Intake {
            phase: Phase::Text,
            place: Place::new(),
            half: HalfLine::new(),
        }
    }

    // No more is taken in.
    pub fn stop(self) -> Intake
        ensures { result ≡ with_phase self Over }
    {
        Intake {
            phase: Phase::Over,
            ..self
        }
    }

    pub fn is_over(self) -> bool
        ensures { result ≡ is_over self }
    {
        self.phase == Phase::Over
    }

    // Whether the lines behind the line * are awaited.
    pub fn in_beats(self) -> bool
        ensures { result ≡ in_beats self }
    {
        self.phase == Phase::Beats
    }

    // Whether it is as each intake that comes from a beginning, whatever its phase: no more kept than there is room for, its line begun within that, no field past the last.
    #[tactic(auto, unfolding(crate::specs::Intake::intake_fits))]
    pub fn fits(self) -> bool
        ensures { result ≡ intake_fits self }
    {
        self.place.size <= KEPT
            && self.place.start <= self.place.size
            && self.half.field <= LAST_FIELD
    }

    // Bytes of a line, no LF among them.
    #[tactic(auto, unfolding(crate::specs::Intake::bytes_taken, crate::specs::Intake::bytes_kept))]
    pub(crate) fn take_in_kept(self, text: &mut [u8; KEPT], part: &[u8]) -> Intake
        requires { self.place.size ≤ kept_size }
        ensures value { result ≡ bytes_taken self part.now }
        ensures text_after { text.new ≡ bytes_kept self text.old part.now }
    {
        match self.phase {
            Phase::Text => {
                put_bytes(text, self.place.size, part);
                Intake {
                    place: self.place.on_kept(part),
                    ..self
                }
            }
            Phase::Beats => Intake {
                half: self.half.read_bytes(part),
                ..self
            },
            Phase::Over | Phase::Unknown(_) => self,
        }
    }

    // ---- ends

    fn nothing_came(self) -> Arrived
        ensures { result ≡ nothing_came self }
    {
        Arrived {
            intake: self,
            arrival: Arrival::Nothing,
        }
    }

    // The set text is whole, and the lines behind the line * follow.
    fn text_whole(self, size: usize) -> Arrived
        ensures { result ≡ text_whole self size }
    {
        Arrived {
            intake: Intake {
                phase: Phase::Beats,
                half: HalfLine::new(),
                ..self
            },
            arrival: Arrival::WholeText(size),
        }
    }

    // A line behind the line * is over.
    fn line_read(self, half: HalfLine) -> Arrived
        ensures { result ≡ line_read self half }
    {
        Arrived {
            intake: Intake {
                half: HalfLine::new(),
                ..self
            },
            arrival: Arrival::LineCame(half.read_said()),
        }
    }

    // The LF of a line of set text: behind the line * the text before it is whole.
    #[tactic(auto, unfolding(crate::specs::Intake::text_line_over, crate::specs::Intake::text_line_kept))]
    fn end_text_line(self, text: &mut [u8; KEPT]) -> Arrived
        requires { self.place.size ≤ kept_size }
        ensures value { result ≡ text_line_over self }
        ensures text_after { text.new ≡ text_line_kept self text.old }
    {
        if self.place.star.ends() {
            return self.text_whole(self.place.start);
        }
        put(text, self.place.size, LF);
        let intake = Intake {
            place: self.place.end_kept(),
            ..self
        };
        intake.nothing_came()
    }

    // An LF.
    #[tactic(auto, unfolding(crate::specs::Intake::line_over, crate::specs::Intake::line_kept))]
    pub(crate) fn end_line_kept(self, text: &mut [u8; KEPT]) -> Arrived
        requires { self.place.size ≤ kept_size }
        ensures value { result ≡ line_over self }
        ensures text_after { text.new ≡ line_kept self text.old }
    {
        match self.phase {
            Phase::Text => self.end_text_line(text),
            Phase::Beats => self.line_read(self.half.without_cr()),
            Phase::Over | Phase::Unknown(_) => self.nothing_came(),
        }
    }

    // The end of input: a last line has no LF.
    #[tactic(auto, unfolding(crate::specs::Intake::input_over))]
    pub fn end_input(self) -> Arrived
        ensures { result ≡ input_over self }
    {
        match self.phase {
            Phase::Text => self.text_whole(self.place.text_size()),
            Phase::Beats if !self.half.is_untouched() => self.line_read(self.half),
            _ => self.nothing_came(),
        }
    }

    // ---- of any intake

    // With no more set text than is kept.
    fn kept(self) -> Intake
        ensures { result ≡ with_place self (place_kept self.place) }
    {
        Intake {
            place: self.place.kept(),
            ..self
        }
    }

    // Bytes of a line: only set text brings the size down to what is kept.
    #[tactic(auto, unfolding(crate::specs::Intake::bytes_taken, crate::specs::Intake::bytes_kept, crate::specs::SetText::place_on))]
    pub fn take_in(self, text: &mut [u8; KEPT], part: &[u8]) -> Intake
        ensures value { result ≡ bytes_taken self part.now }
        ensures text_after { text.new ≡ bytes_kept self text.old part.now }
    {
        let taken = self.kept().take_in_kept(text, part);
        match self.phase {
            Phase::Text => taken,
            _ => Intake {
                place: self.place,
                ..taken
            },
        }
    }

    // An LF: only that of a line of set text, other than the line *, brings it down.
    #[tactic(auto, unfolding(crate::specs::Intake::line_over, crate::specs::Intake::line_kept, crate::specs::Intake::text_line_over, crate::specs::Intake::text_line_kept, crate::specs::SetText::place_end))]
    pub fn end_line(self, text: &mut [u8; KEPT]) -> Arrived
        ensures value { result ≡ line_over self }
        ensures text_after { text.new ≡ line_kept self text.old }
    {
        let ended = self.kept().end_line_kept(text);
        match self.phase {
            Phase::Text if !self.place.star.ends() => ended,
            _ => Arrived {
                intake: Intake {
                    place: self.place,
                    ..ended.intake
                },
                ..ended
            },
        }
    }
}
