// The script's events on the manager, with so much of the store and of the output lent as the run says, and the lines that are printed for them.
use batch::Answers;
use events::Answer;
use gateanswers::{print_answer, print_files, print_packet};
use gatescript::{Event, command_of};
use gatesteps::Desk;
use textlines::{Page, Wrong};

// The lines of an answer, whose files begin the output.
fn print_answered(page: &mut Page<'_>, answer: Answer, output: &[u8]) {
    print_answer(page, answer);
    print_files(page, output, answer.files);
}

// The lines of a packet: what came of it, and then for each record that was tried its answer and the files that it closed. C reads
// these answers: one of no record has neither a refusal nor an outcome, and is no Option.
fn print_tried(page: &mut Page<'_>, tried: Answers, output: &[u8]) {
    print_packet(page, tried.refusal, tried.accepted);
    let mut rest = output;
    for answer in tried.answers {
        if answer.refusal == 0 && answer.outcome == 0 {
            return;
        }
        print_answered(page, answer, rest);
        rest = rest.get(answer.octets..).unwrap_or_default();
    }
}

// Has the event answered by the manager, or the packet taken, and what came of it printed.
fn happen(event: Event<'_>, desk: &mut Desk<'_>, page: &mut Page<'_>) {
    // The run lends no more than there is, which `min` says here.
    let stored = desk.run.stored.min(desk.store.len());
    let width = desk.run.width.min(desk.output.len());
    let words = &mut *desk.words;
    let store = &mut desk.store[..stored];
    let output = &mut desk.output[..width];
    let answer = match event {
        Event::Open(time, route) => manager::open(words, store, output, time, route),
        Event::Close(time, route, reason) => {
            manager::close(words, store, output, time, route, reason)
        }
        Event::Tick(time) => manager::tick(words, store, output, time),
        Event::Receive(r) => {
            receiving::receive(words, store, output, r.time, r.arrival, r.key, r.body)
        }
        Event::Packet(packet) => {
            let tried = batch::take(words, store, output, packet);
            return print_tried(page, tried, output);
        }
    };
    print_answered(page, answer, output);
}

// Carries out a line, whose octets, if it has any, go to the start of `octets`.
pub fn answer(
    line: &[u8],
    octets: &mut [u8],
    desk: &mut Desk<'_>,
    page: &mut Page<'_>,
) -> Result<(), Wrong> {
    let command = command_of(line, octets).ok_or(Wrong)?;
    if let Some(event) = desk.carry_out(command, page)? {
        happen(event, desk, page);
    }
    Ok(())
}
