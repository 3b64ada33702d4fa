// What a session prints: each beat and END (synrun), or nothing of its beats and the status picture at its end (synstat).

#[derive(Clone, Copy)]
pub enum View {
    Run,
    Status,
}
