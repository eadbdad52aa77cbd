// Report pages: reads an event list from standard input and writes a page for the start and after every accepted event.
// What a line says and what it prints is proved in steps, page and report. Here each line of the input is handed to the report, and what it prints is handed on at once.
#![tactic(auto)]

use console::{Failure, Input, Line, hand_on, tell};
use report::{Course, PAGE, Report};
use steps::line::LONGEST;
use text::words::first;

// The program's name, on standard error.
const NAME: [u8; 5] = *b"pages";

// How much of the input is read at once, at most.
const PIECE: usize = 65536;

// Reads on until the report has ended. A proved loop has to end, and nothing says that the input does: this one counts to a number that no run comes to.
fn print_pages(rt: &HostRuntime) -> Result<(), Failure> {
    let mut from = rt.stdin();
    let mut input = Input::new();
    let mut piece = [0u8; PIECE];
    let mut room = [0u8; LONGEST + 1];
    let mut page = [0u8; PAGE];
    let mut report = Report::new();
    for _ in 0..u64::MAX {
        let line = input.next_line(&mut from, &mut piece, &mut room)?;
        let taken = match line {
            Line::Whole(text) => report.take(text, &mut page),
            Line::Last(text) => report.take_last(text, &mut page),
        };
        let printed = first(&page, taken.length);
        hand_on(&rt.stdout(), printed)?;
        // What stops a report is told too, so that the script knows.
        if matches!(taken.course, Course::Stopped) {
            tell(&rt.stderr(), &NAME, printed);
        }
        if taken.course.has_ended() {
            break;
        }
        report = taken.report;
    }
    Ok(())
}

fn main(rt: HostRuntime) {
    if let Err(failure) = print_pages(&rt) {
        failure.tell(&rt.stderr(), &NAME);
    }
}
