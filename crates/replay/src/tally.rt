// How many lines there were, and how many of them agree, by the call that they name.
use crate::call::Call;
use replay_values::counts::Counts;
use replay_values::line::Line;
use std::fmt;

#[derive(Clone, Copy)]
struct Row {
    call: Call,
    counts: Counts,
}

impl fmt::Display for Row {
    fn fmt<W: fmt::Write>(&self, f: &mut fmt::Formatter<W>) -> fmt::Result {
        let name = self.call.name();
        let counts = self.counts;
        writeln!(f, "{name:<16}{counts}")
    }
}

#[derive(Drop)]
pub struct Tally {
    rows: [Row; 25],
    total: Counts, // also of lines that name no call
}

impl Tally {
    pub fn new() -> Tally {
        Tally {
            rows: Call::ALL.map(|call| Row {
                call,
                counts: Counts::default(),
            }),
            total: Counts::default(),
        }
    }

    // Counts a line, and gives whether it agrees.
    pub fn count(&mut self, text: &[u8]) -> bool {
        let mut line = Line::new(text);
        let name = line.name();
        let mut agrees = false;
        let place = self
            .rows
            .iter()
            .position(|row| name == Some(row.call.name().as_bytes()));
        if let Some(place) = place {
            let row = &mut self.rows[place];
            agrees = row.call.agrees(line).unwrap_or(false);
            row.counts.count(agrees);
        }
        self.total.count(agrees);
        agrees
    }
}

impl fmt::Display for Tally {
    fn fmt<W: fmt::Write>(&self, f: &mut fmt::Formatter<W>) -> fmt::Result {
        for row in &self.rows {
            write!(f, "{row}")?;
        }
        let total = self.total;
        writeln!(f, "{total} agree")
    }
}
