//! How far a script of one seat is, shown on a terminal while its answers are handed on. No claim
//! rests on these words.

ghost use Rattle.std.specs.Prelude.{◌≡◌};

use std::cell::Cell;
use std::io;
use std::io::{Eprint, Write};
use std::time::{Clock, Duration, Instant};

/// A run is shown once it has taken so many milliseconds, and anew when as many more went by.
const BETWEEN: u64 = 500;

/// Answers are counted in parts of so many bytes, fewer than a byte counts to.
const PART: usize = 240;

/// Where it is shown how many lines of a script are answered: a line of a terminal.
#[derive(Drop)]
pub struct Progress<'a, R> {
    rt: &'a R,
    is_seen: bool,
    /// The script that is under way, where it is shown.
    run: Cell<Option<Run>>,
}

/// How far a script is.
#[derive(Clone, Copy)]
struct Run {
    lines: usize,
    answered: usize,
    /// When the run began, or the line was written last.
    shown: Instant,
    has_line: bool,
}

impl<'a, R: Clock + Eprint> Progress<'a, R> {
    /// A line of standard error, where one is seen.
    pub fn new(rt: &'a R, is_seen: bool) -> Progress<'a, R> {
        Progress {
            rt,
            is_seen,
            run: Cell::new(None),
        }
    }

    /// A script of so many lines is run from now on.
    pub fn begin(&self, lines: usize) {
        if !self.is_seen {
            return;
        }
        if let Ok(shown) = Instant::now(self.rt) {
            self.run.set(Some(Run {
                lines,
                answered: 0,
                shown,
                has_line: false,
            }));
        }
    }

    /// These answers were handed on. The clock is looked at once for all of them, a buffer full.
    fn advance(&self, answers: &[u8]) {
        let Some(mut run) = self.run.get() else {
            return;
        };
        run.answered = run.answered.saturating_add(lines_in(answers));
        if let Ok(now) = Instant::now(self.rt) {
            if now.duration_since(run.shown) >= Duration::from_millis(BETWEEN) {
                run.shown = now;
                run.has_line = true;
                let (answered, lines) = (run.answered, run.lines);
                let _ = eprint!(self.rt; "\r\x1b[Kmsgq: answered {answered} of {lines} lines");
            }
        }
        self.run.set(Some(run));
    }

    /// All answers were handed on, or one can't be: the line is cleared, and nothing more is shown.
    fn end(&self) {
        if let Some(run) = self.run.get() {
            if run.has_line {
                let _ = eprint!(self.rt; "\r\x1b[K");
            }
            self.run.set(None);
        }
    }
}

/// How many lines end in a text.
fn lines_in(text: &[u8]) -> usize {
    text.chunks(PART).fold(0, |many: usize, part| {
        many.saturating_add(usize::from(line_ends(part)))
    })
}

/// How many line ends a part has. They are counted in a byte, so that sixteen are at a time.
fn line_ends(part: &[u8]) -> u8 {
    part.iter().fold(0, |many: u8, byte| {
        many.wrapping_add(u8::from(*byte == b'\n'))
    })
}

/// A writer that passes all on to another one, and shows how many answers were handed on.
#[derive(Drop)]
pub struct Watched<'p, 'a, W, R> {
    writer: W,
    progress: &'p Progress<'a, R>,
}

impl<'p, 'a, W: Write, R: Clock + Eprint> Watched<'p, 'a, W, R> {
    /// Passes on to this writer.
    pub fn new(writer: W, progress: &'p Progress<'a, R>) -> Watched<'p, 'a, W, R>
        ensures { result.writer ≡ writer }
    {
        Watched { writer, progress }
    }
}

impl<W: Write, R: Clock + Eprint> Write for Watched<'_, '_, W, R> {
    ghost contents = { λ w. W.contents w.writer };

    fn write(&mut self, answers: &[u8]) -> io::Result<usize> {
        let handed = self.writer.write(answers);
        match &handed {
            Ok(count) if *count > 0 => self.progress.advance(&answers[..*count]),
            _ => self.progress.end(),
        }
        handed
    }

    fn flush(&mut self) -> io::Result<()> {
        self.progress.end();
        self.writer.flush()
    }
}
