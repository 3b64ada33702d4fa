// The methods of a session's parts, as another crate calls them: on what it holds of a session, made up or begun. Tests alone.
#![tactic(auto)]

#[cfg(test)]
mod tests {
    use engine::MAX_ORDERS;
    use transcript::{KEPT, Phase, Star, View, begin};
    use values::time::Beats;

    // Where the set text stands: bytes of a line, its LF, and where the text ends if the line has none.
    #[test]
    fn place_of_the_text(rt: HostRuntime) {
        let begun = begin(View::Run).intake.place;
        let line = begun.on(b"WHEN").on(b"EVER");
        assert_eq!(rt; line.size, 8);
        assert_eq!(rt; line.start, 0);
        assert_eq!(rt; line.text_size(), 8);
        let behind = line.end();
        assert_eq!(rt; behind.size, 9);
        assert_eq!(rt; behind.start, 9);
        let star = behind.on(b"*");
        assert!(rt; star.star == Star::Alone);
        assert_eq!(rt; star.text_size(), 9);
        assert_eq!(rt; behind.on(b"*\r").text_size(), 11);
        let mut full = begun;
        for size in [KEPT - 1, KEPT, usize::MAX] {
            full.size = size;
            assert_eq!(rt; full.on(b"AB").size, KEPT, "at {size}");
            assert_eq!(rt; full.end().start, KEPT, "at {size}");
        }
    }

    #[test]
    fn line_that_is_a_star(rt: HostRuntime) {
        let cases = [
            (Star::Empty, false),
            (Star::Alone, true),
            (Star::Return, true),
            (Star::Other, false),
            (Star::Unknown(1), false),
        ];
        for (star, want) in cases {
            assert_eq!(rt; star.ends(), want);
        }
    }

    // A line behind the line *: what it says, in parts, with a CR at its end.
    #[test]
    fn line_so_far(rt: HostRuntime) {
        let begun = begin(View::Run).intake.half;
        assert!(rt; begun.is_untouched());
        assert!(rt; begun.read_said().is_none());
        for part in [b"A".as_slice(), b"A ", b"P", b"X"] {
            assert!(rt; !begun.read_bytes(part).is_untouched());
        }
        let line = begun.read_bytes(b"A 1").read_bytes(b"23 00000000");
        assert!(rt; !line.is_untouched());
        assert!(rt; line.read_said().is_some());
        let ended = line.read_bytes(b"\r");
        assert!(rt; ended.read_said().is_none());
        assert!(rt; ended.without_cr().read_said().is_some());
        for part in [b"PE".as_slice(), b"RS"] {
            let call = begun.read_bytes(part);
            assert!(rt; call.read_said().is_some());
            assert!(rt; call.read_bytes(b"\r").read_said().is_none());
            assert!(rt; call.read_bytes(b"\r").without_cr().read_said().is_some());
            assert!(rt; call.read_bytes(b"S").read_said().is_none());
        }
    }

    #[test]
    fn intake_of_a_session(rt: HostRuntime) {
        let begun = begin(View::Run).intake;
        assert!(rt; begun.fits());
        assert!(rt; !begun.in_beats());
        assert!(rt; !begun.is_over());
        assert!(rt; begun.stop().is_over());
        assert!(rt; !begun.stop().in_beats());
        let mut other = begun;
        for phase in [Phase::Beats, Phase::Unknown(9)] {
            other.phase = phase;
            assert!(rt; !other.is_over());
            assert_eq!(rt; other.in_beats(), phase == Phase::Beats);
            assert!(rt; other.fits());
        }
        let mut long = begun;
        long.place.size = KEPT;
        assert!(rt; long.fits());
        long.place.size = KEPT + 1;
        assert!(rt; !long.fits());
        let mut behind = begun;
        behind.place.start = 1;
        assert!(rt; !behind.fits());
        let mut wide = begun;
        wide.half.field = u8::MAX;
        assert!(rt; !wide.fits());
    }

    // A set text of one line and the line *, then a line behind it: what is kept of it, and when the lines behind are awaited.
    #[test]
    fn input_of_a_session(rt: HostRuntime) {
        let mut text = [0; KEPT];
        let line = begin(View::Run).intake.take_in(&mut text, b"AB");
        assert_eq!(rt; text[0], b'A');
        assert_eq!(rt; text[1], b'B');
        let next = line.end_line(&mut text).intake;
        assert_eq!(rt; text[2], b'\n');
        assert_eq!(rt; next.place.start, 3);
        let star = next.take_in(&mut text, b"*");
        assert!(rt; star.end_input().intake.in_beats());
        let beats = star.end_line(&mut text).intake;
        assert!(rt; beats.in_beats());
        assert!(rt; !beats.is_over());
        let half = beats.take_in(&mut text, b"A 1");
        assert!(rt; !half.half.is_untouched());
        assert!(rt; half.end_line(&mut text).intake.half.is_untouched());
        assert!(rt; half.end_input().intake.half.is_untouched());
    }

    // No intake is refused: one whose text is longer than what is kept writes nothing behind it, and one that is over takes nothing in.
    #[test]
    fn any_intake(rt: HostRuntime) {
        let mut text = [7; KEPT];
        let mut long = begin(View::Run).intake;
        long.place.size = usize::MAX;
        let taken = long.take_in(&mut text, b"AB");
        assert_eq!(rt; taken.place.size, KEPT);
        assert_eq!(rt; long.end_line(&mut text).intake.place.start, KEPT);
        assert_eq!(rt; text[KEPT - 1], 7);
        let over = begin(View::Run).intake.stop();
        assert_eq!(rt; over.take_in(&mut text, b"AB").place.size, 0);
        assert!(rt; over.end_line(&mut text).intake.phase == Phase::Over);
        assert_eq!(rt; text[0], 7);
    }

    #[test]
    fn counts_of_a_session(rt: HostRuntime) {
        let mut counts = begin(View::Run).totals.counts;
        counts.count(0, 3);
        counts.count(22, 0);
        counts.count_call();
        assert_eq!(rt; counts.lines, 3);
        assert_eq!(rt; counts.beats.0, 2);
        assert_eq!(rt; counts.coded, 1);
        assert_eq!(rt; counts.orders, 3);
        assert!(rt; counts.are_fit());
        counts.count(0, MAX_ORDERS as u32 + 1);
        assert_eq!(rt; counts.lines, 3, "more orders than a beat may have");
        counts.count(0, MAX_ORDERS as u32);
        assert_eq!(rt; counts.lines, 4);
        assert_eq!(rt; counts.orders, 3 + MAX_ORDERS as u32);
        let mut coded = counts;
        coded.coded = 4;
        assert!(rt; !coded.are_fit());
        let mut ordered = counts;
        ordered.orders = 3 * MAX_ORDERS as u32;
        assert!(rt; ordered.are_fit());
        ordered.orders += 1;
        assert!(rt; !ordered.are_fit());
    }

    // Counts that no session has with a line still to come stay as they are.
    #[test]
    fn any_counts(rt: HostRuntime) {
        let mut counts = begin(View::Run).totals.counts;
        for (lines, beats) in [(1000000, 0), (3, 4), (u32::MAX, u32::MAX)] {
            counts.lines = lines;
            counts.beats = Beats(beats);
            assert!(rt; !counts.are_fit());
            counts.count(0, 1);
            counts.count_call();
            assert_eq!(rt; counts.lines, lines);
            assert_eq!(rt; counts.beats.0, beats);
            assert_eq!(rt; counts.orders, 0);
        }
    }
}
